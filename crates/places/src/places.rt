// A cell's place in the lent lists, and the cell that contains a point, on the grid of some extents: axis by axis, the
// first axis first.
ghost use Rattle.std.specs.Prelude.{◌≡◌};
ghost use Rattle.std.specs.Float.{binary64};
ghost use Rattle.rules.specs.Coordinates.{off_axes, outside_axes, flat_index, cell_containing};
ghost use Rattle.types.specs.Answers.{answer_of};
ghost use Rattle.laws.specs.Checks.{InBounds};
ghost use Rattle.places.specs.Places.{place_of};

use crate::containing::axis_containing;
use crate::index::{axis_at, place_within2, place_within3};
use crate::off::{is_off, with_bit, with_coordinate};
use types::{Axes, Cell2, Cell3, Extents2, Extents3, Point2, Point3, Refusal};

pub trait Places: Axes {
    // Which axes of a cell are off the grid: a set, as a number whose bit k is 1 where axis k is.
    fn off_axes(self, cell: Self::Cell) -> u16
        ensures { result ≡ off_axes (Self.extents self) (Self.cell cell) };

    // The same of a point.
    fn outside_axes(self, point: Self::Point) -> u16
        ensures { result ≡ outside_axes binary64 (Self.extents self) (Self.point point) };

    // Extents in bounds, so that no product wraps.
    fn translate_to_index(self, cell: Self::Cell) -> Result<usize, Refusal>
        requires in_bounds { InBounds (Self.extents self) }
        ensures { place_of result ≡ flat_index (Self.extents self) (Self.cell cell) };

    fn cell_containing(self, point: Self::Point) -> Result<Self::Cell, Refusal>
        ensures { answer_of Self.cell result ≡ cell_containing binary64 (Self.extents self) (Self.point point) };
}

impl Places for Extents2 {
    fn off_axes(self, cell: Cell2) -> u16 {
        let y = with_bit(is_off(cell.y, self.y), 0);
        with_bit(is_off(cell.x, self.x), y)
    }

    fn outside_axes(self, point: Point2) -> u16 {
        let y = with_coordinate(self.y, point.y, 0);
        with_coordinate(self.x, point.x, y)
    }

    fn translate_to_index(self, cell: Cell2) -> Result<usize, Refusal> {
        let axes = self.off_axes(cell);
        let x = axis_at(0, cell.x, self.x, axes)?;
        let y = axis_at(1, cell.y, self.y, axes)?;
        Ok(place_within2(self, x, y))
    }

    fn cell_containing(self, point: Point2) -> Result<Cell2, Refusal> {
        let axes = self.outside_axes(point);
        let x = axis_containing(0, self.x, point.x, axes)?;
        let y = axis_containing(1, self.y, point.y, axes)?;
        Ok(Cell2 { x, y })
    }
}

impl Places for Extents3 {
    fn off_axes(self, cell: Cell3) -> u16 {
        let z = with_bit(is_off(cell.z, self.z), 0);
        let yz = with_bit(is_off(cell.y, self.y), z);
        with_bit(is_off(cell.x, self.x), yz)
    }

    fn outside_axes(self, point: Point3) -> u16 {
        let z = with_coordinate(self.z, point.z, 0);
        let yz = with_coordinate(self.y, point.y, z);
        with_coordinate(self.x, point.x, yz)
    }

    fn translate_to_index(self, cell: Cell3) -> Result<usize, Refusal> {
        let axes = self.off_axes(cell);
        let x = axis_at(0, cell.x, self.x, axes)?;
        let y = axis_at(1, cell.y, self.y, axes)?;
        let z = axis_at(2, cell.z, self.z, axes)?;
        Ok(place_within3(self, x, y, z))
    }

    fn cell_containing(self, point: Point3) -> Result<Cell3, Refusal> {
        let axes = self.outside_axes(point);
        let x = axis_containing(0, self.x, point.x, axes)?;
        let y = axis_containing(1, self.y, point.y, axes)?;
        let z = axis_containing(2, self.z, point.z, axes)?;
        Ok(Cell3 { x, y, z })
    }
}
