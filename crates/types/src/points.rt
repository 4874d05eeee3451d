// Places: points and directions in fractional cell coordinates, cells by their indices, and extents, each for two and
// three axes.

// A position; 1.0 is one cell.
#[repr(C)]
#[derive(Clone, Copy)]
pub struct Point2 {
    pub x: f64,
    pub y: f64,
}

#[repr(C)]
#[derive(Clone, Copy)]
pub struct Point3 {
    pub x: f64,
    pub y: f64,
    pub z: f64,
}

// A direction, or a gradient in value per cell.
#[repr(C)]
#[derive(Clone, Copy)]
pub struct Vector2 {
    pub x: f64,
    pub y: f64,
}

#[repr(C)]
#[derive(Clone, Copy)]
pub struct Vector3 {
    pub x: f64,
    pub y: f64,
    pub z: f64,
}

// A cell's indices, which may be negative or out of range.
#[repr(C)]
#[derive(Clone, Copy)]
pub struct Cell2 {
    pub x: i64,
    pub y: i64,
}

#[repr(C)]
#[derive(Clone, Copy)]
pub struct Cell3 {
    pub x: i64,
    pub y: i64,
    pub z: i64,
}

// The number of cells along each axis.
#[repr(C)]
#[derive(Clone, Copy)]
pub struct Extents2 {
    pub x: u64,
    pub y: u64,
}

#[repr(C)]
#[derive(Clone, Copy)]
pub struct Extents3 {
    pub x: u64,
    pub y: u64,
    pub z: u64,
}
