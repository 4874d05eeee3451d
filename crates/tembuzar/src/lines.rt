// The line plotter, from C: a line between two points, and one step of a line, for two and three axes.
ghost use Rattle.std.specs.Prelude.{◌≡◌};
ghost use Rattle.std.specs.Float.{binary64};
ghost use Rattle.rules.specs.TheLine as TheLine;
ghost use Rattle.types.specs.Points.{point2, point3};
ghost use Rattle.bresenham.specs.Lines.{line2, line3};
ghost use Rattle.c_types.specs.Lines.{c_line2, c_line3, c_step2, c_step3};

use bresenham::{BresenhamLine2, BresenhamLine3, Lines};
use c_types::{CLineAnswer2, CLineAnswer3, CStep2, CStep3, step2_to_c, step3_to_c};
use types::{Extents2, Extents3, Point2, Point3};

#[unsafe(no_mangle)]
pub extern "C" fn tembuzar_plotter2(start: Point2, end: Point2) -> CLineAnswer2
    ensures { result ≡ c_line2 (TheLine.plotter binary64 (point2 start) (point2 end)) }
{
    CLineAnswer2::from(Extents2::plotter(start, end))
}

#[unsafe(no_mangle)]
pub extern "C" fn tembuzar_step2(line: BresenhamLine2) -> CStep2
    ensures { result ≡ c_step2 line (TheLine.step_of binary64 (line2 line)) }
{
    step2_to_c(line, Extents2::next(line))
}

#[unsafe(no_mangle)]
pub extern "C" fn tembuzar_plotter3(start: Point3, end: Point3) -> CLineAnswer3
    ensures { result ≡ c_line3 (TheLine.plotter binary64 (point3 start) (point3 end)) }
{
    CLineAnswer3::from(Extents3::plotter(start, end))
}

#[unsafe(no_mangle)]
pub extern "C" fn tembuzar_step3(line: BresenhamLine3) -> CStep3
    ensures { result ≡ c_step3 line (TheLine.step_of binary64 (line3 line)) }
{
    step3_to_c(line, Extents3::next(line))
}
