// A map's head as C sees it: the fields of `GridMap2` and `GridMap3`, which are generic and cannot cross, and the
// conversions both ways.
ghost use Rattle.std.specs.Prelude.{◌≡◌};
ghost use Rattle.c_types.specs.Heads.{from_c2, to_c2, from_c3, to_c3};

use grid_map::{GridMap2, GridMap3};
use types::{Bands, Extents2, Extents3, Frame, Model};

#[repr(C)]
#[derive(Clone, Copy)]
pub struct CMap2 {
    pub extents: Extents2,
    pub model: Model,
    pub frame: Frame,
}

#[repr(C)]
#[derive(Clone, Copy)]
pub struct CMap3 {
    pub extents: Extents3,
    pub bands: Bands,
    pub frame: Frame,
}

impl From<CMap2> for GridMap2 {
    ghost from_gives = { λ map result. result ≡ from_c2 map };

    fn from(map: CMap2) -> GridMap2 {
        GridMap2 {
            extents: map.extents,
            model: map.model,
            frame: map.frame,
        }
    }
}

impl From<GridMap2> for CMap2 {
    ghost from_gives = { λ map result. result ≡ to_c2 map };

    fn from(map: GridMap2) -> CMap2 {
        CMap2 {
            extents: map.extents,
            model: map.model,
            frame: map.frame,
        }
    }
}

impl From<CMap3> for GridMap3 {
    ghost from_gives = { λ map result. result ≡ from_c3 map };

    fn from(map: CMap3) -> GridMap3 {
        GridMap3 {
            extents: map.extents,
            model: map.bands,
            frame: map.frame,
        }
    }
}

impl From<GridMap3> for CMap3 {
    ghost from_gives = { λ map result. result ≡ to_c3 map };

    fn from(map: GridMap3) -> CMap3 {
        CMap3 {
            extents: map.extents,
            bands: map.model,
            frame: map.frame,
        }
    }
}
