// An interpolated value and its gradient in value per cell.
use crate::points::{Vector2, Vector3};

#[repr(C)]
#[derive(Clone, Copy)]
pub struct MapSample2 {
    pub value: f64,
    pub gradient: Vector2,
}

#[repr(C)]
#[derive(Clone, Copy)]
pub struct MapSample3 {
    pub value: f64,
    pub gradient: Vector3,
}
