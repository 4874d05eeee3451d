// The line plotter: a line is made between two points, and a step by value gives a cell and the line after it. Lines of
// two axes and of three each say how their axes are joined; what names no axis stands once, in the trait. Its functions
// belong to extents, as points and cells do.
ghost use Rattle.std.specs.Prelude.{◌≡◌, ◌<◌, ℕ, List, leb, length};
ghost use Rattle.std.specs.Float.{binary64};
ghost use Rattle.rules.specs.TheLine as TheLine;
ghost use Rattle.rules.specs.Coordinates.{truncated_point};
ghost use Rattle.laws.specs.LineSteps.{line_after, line_ended};
ghost use Rattle.laws.specs.Following.{AllFollowed, AllSmall, WholeSteps};
ghost use Rattle.types.specs.Answers.{answer_of};
ghost use Rattle.bresenham.specs.Axes.{primary};
ghost use Rattle.bresenham.specs.Lines.{primary_between, step_as};

use crate::axis::Primary;
use types::{Axes, Refusal};

pub trait Lines: Axes {
    // The cells of a line that are still to come. It goes from the start to the end, whichever way that is, and always
    // yields at least one cell: where both points fall within one step, that cell is the end's.
    type Line: Copy;

    // The cell of each axis as a whole number.
    type Cells: Copy;

    ghost line_of: { Self.Line → TheLine.Line };

    ghost cells: { Self.Cells → List ℕ };

    // The longest axis. A delta that is not finite cannot be ordered against the others or counted in steps.
    fn longest(start: Self::Point, end: Self::Point) -> Result<Primary, Refusal>
        ensures { answer_of primary result ≡ primary_between binary64 (Self.point start) (Self.point end) };

    // At the start, with nothing added to any axis's error yet.
    fn between(best: Primary, start: Self::Point, end: Self::Point) -> Self::Line
        ensures { line_of result ≡ TheLine.line_between binary64 (primary best) (Self.point start) (Self.point end) };

    // How many cells are still to come.
    fn remaining(line: Self::Line) -> u64
        ensures { result ≡ (line_of line).remaining };

    // Whether the primary axis is none of the line's.
    fn lacks_primary(line: Self::Line) -> bool
        ensures { result ≡ leb (length (line_of line).axes) (line_of line).primary };

    // The cell that the line has come to.
    fn current_cell(line: Self::Line) -> Self::Cell
        ensures { Self.cell result ≡ truncated_point (TheLine.currents (line_of line).axes) };

    // The end's cell, however far the line has come.
    fn last_cell(line: Self::Line) -> Self::Cell
        ensures { Self.cell result ≡ truncated_point (TheLine.ends (line_of line).axes) };

    // Each axis moved on. One less remains, so something has to: whoever calls has tested that.
    fn moved(line: Self::Line) -> Self::Line
        requires { 0 < (line_of line).remaining }
        ensures { line_of result ≡ line_after binary64 (line_of line) };

    // The same line, with nothing remaining.
    fn ended(line: Self::Line) -> Self::Line
        ensures { line_of result ≡ line_ended (line_of line) };

    // The cells that the line's axes can be followed from.
    fn followed(line: Self::Line) -> Self::Cells
        ensures { AllFollowed binary64 (cells result) (line_of line).axes };

    // The cells after a step of the line. They are cells of a grid, and the line's coordinates lie in them.
    fn cells_after(now: Self::Cells, line: Self::Line) -> Self::Cells
        requires small { AllSmall (cells now) }
        requires followed { AllFollowed binary64 (cells now) (line_of line).axes }
        requires whole_steps { WholeSteps (line_of line).axes }
        ensures { AllFollowed binary64 (cells result) (line_after binary64 (line_of line)).axes };

    // A line between two points.
    final fn plotter(start: Self::Point, end: Self::Point) -> Result<Self::Line, Refusal>
        ensures { answer_of line_of result ≡ TheLine.plotter binary64 (Self.point start) (Self.point end) }
    {
        let best = Self::longest(start, end)?;
        Ok(Self::between(best, start, end))
    }

    // One step along the primary axis. The last gives the end's cell; then nothing remains.
    final fn next(line: Self::Line) -> Option<(Self::Cell, Self::Line)>
        ensures { step_as Self.cell line_of result ≡ TheLine.step_of binary64 (line_of line) }
    {
        let remaining = Self::remaining(line);
        if remaining == 0 {
            return None;
        }
        if Self::lacks_primary(line) {
            return None;
        }
        if remaining == 1 {
            return Some((Self::last_cell(line), Self::ended(line)));
        }
        Some((Self::current_cell(line), Self::moved(line)))
    }
}
