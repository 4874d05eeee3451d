// Beams, and what clipping leaves of one.
use crate::points::{Point2, Point3};

// Why a beam stopped where it did. A bool with a name, since an enum cannot cross to C: a beam is C's own.
#[repr(C)]
#[derive(Clone, Copy)]
pub struct RayTermination(pub bool);

impl RayTermination {
    // The sensor received a return, so the final cell is evidence of cloud.
    pub const HIT: RayTermination = RayTermination(true);
    // The beam reached its maximum range, so the final cell is evidence of clear air.
    pub const MAX_RANGE: RayTermination = RayTermination(false);
}

// One range measurement: where the beam started, where it stopped, and why.
#[repr(C)]
#[derive(Clone, Copy)]
pub struct ScanBeam2 {
    pub origin: Point2,
    pub endpoint: Point2,
    pub termination: RayTermination,
}

#[repr(C)]
#[derive(Clone, Copy)]
pub struct ScanBeam3 {
    pub origin: Point3,
    pub endpoint: Point3,
    pub termination: RayTermination,
}

// A measurement of an instrument that looks straight up and sends whole numbers: the column, the height of the cell it
// starts in, and that of the cell it stopped in. A top height of the map's own extent says that the beam ran out.
#[repr(C)]
#[derive(Clone, Copy)]
pub struct VerticalBeam {
    pub x: u64,
    pub y: u64,
    pub bottom: u64,
    pub top: u64,
    pub termination: RayTermination,
}

// A segment clipped to the map, both ends clamped to cells of it, and whether its computed end lay inside.
#[derive(Clone, Copy)]
pub struct Clipped<P> {
    pub entry: P,
    pub exit: P,
    pub inside: bool,
}
