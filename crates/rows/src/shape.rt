// Extents as so many rows along axis 0, and the size of their own field: what a record needs of them, for two axes and
// for three.
ghost use Rattle.std.specs.Prelude.{◌≡◌, ◌*◌};
ghost use Rattle.rules.specs.Fields.{field_size};
ghost use Rattle.rules.specs.MapRecord.{extents_length, row_width, row_count};
ghost use Rattle.rules.specs.TheGridAndItsBounds.{cells};
ghost use Rattle.laws.specs.Checks.{InBounds};
ghost use Rattle.rows.specs.Shapes.{by_rows2, by_rows3};

use fields::{HEAD_SIZE, SHORT_SIZE};
use types::{Axes, Extents2, Extents3};

pub trait Shaped: Axes {
    fn row_width(self) -> usize
        ensures { result ≡ row_width (Self.extents self) };

    // The product of the extents after axis 0. The extents have passed, so that it does not wrap.
    fn row_count(self) -> usize
        requires in_bounds { InBounds (Self.extents self) }
        ensures { result ≡ row_count (Self.extents self) };

    ghost by_rows: { (e : Self)
        → cells (Self.extents e) ≡ row_width (Self.extents e) * row_count (Self.extents e) };

    // The extents' field has a number of two bytes for each axis.
    final fn extents_length() -> usize
        ensures { result ≡ extents_length Self.AXES }
    {
        SHORT_SIZE * Self::AXES
    }

    // The field with its head. Edition 1 has the extents first, so that the model's field stands behind so many bytes.
    final fn extents_size() -> usize
        ensures { result ≡ field_size (extents_length Self.AXES) }
    {
        HEAD_SIZE + Self::extents_length()
    }
}

impl Shaped for Extents2 {
    fn row_width(self) -> usize {
        self.x as usize
    }

    fn row_count(self) -> usize {
        self.y as usize
    }

    ghost by_rows = { by_rows2 };
}

impl Shaped for Extents3 {
    fn row_width(self) -> usize {
        self.x as usize
    }

    fn row_count(self) -> usize {
        (self.y * self.z) as usize
    }

    ghost by_rows = { by_rows3 };
}
