// A refusal as C sees it: its number, and each of the table's values under a name. Axes, extents, places and counts are
// never negative and stay unsigned, so every refusal has its struct, whatever its values.
ghost use Rattle.std.specs.Prelude.{◌≡◌};
ghost use Rattle.types.specs.Refusals.{refusal_of};
ghost use Rattle.c_types.specs.Refusals.{plain, on_grid, in_list, at_place, in_room, c_refusal};

use types::Refusal;

#[repr(C)]
#[derive(Clone, Copy)]
pub struct CRefusal {
    // 0 where the call was answered.
    pub number: u32,
    // How many of the values below the refusal gives; the others are 0.
    pub values: u16,
    // 5: the set of all axes that are off, axis k as bit k.
    pub axes: u16,
    // 1, 5 and 6.
    pub axis: u64,
    // 5.
    pub index: i64,
    // 1 and 5.
    pub extent: u64,
    // 7 in a list: the refused beam's place, from 0. 10 and 12: the offset of the broken field. 17: the column's place.
    pub place: u64,
    // 7 in a list: the count of the beams before it.
    pub count: u64,
    // 11: how many elements the output has to have: bytes of a record or a file, numbers of a chart.
    pub needed: u64,
}

// A number without values; 0 is no refusal's, and stands for an answer.
pub fn bare(number: u32) -> CRefusal
    ensures { result ≡ plain number }
{
    CRefusal {
        number,
        values: 0,
        axes: 0,
        axis: 0,
        index: 0,
        extent: 0,
        place: 0,
        count: 0,
        needed: 0,
    }
}

// A refusal of the grid or of a place on it.
fn on_grid(number: u32, values: u16, axis: u64, index: i64, extent: u64, axes: u16) -> CRefusal
    ensures { result ≡ on_grid number values axis index extent axes }
{
    CRefusal {
        number,
        values,
        axes,
        axis,
        index,
        extent,
        place: 0,
        count: 0,
        needed: 0,
    }
}

// A refusal of one beam in a list.
fn in_list(place: u64, count: u64) -> CRefusal
    ensures { result ≡ in_list place count }
{
    CRefusal {
        number: 7,
        values: 2,
        axes: 0,
        axis: 0,
        index: 0,
        extent: 0,
        place,
        count,
        needed: 0,
    }
}

// A refusal of a record, a file or a chart at one place in it.
fn at_place(number: u32, place: u64) -> CRefusal
    ensures { result ≡ at_place number place }
{
    CRefusal {
        number,
        values: 1,
        axes: 0,
        axis: 0,
        index: 0,
        extent: 0,
        place,
        count: 0,
        needed: 0,
    }
}

// A refusal of an output that is too short.
fn in_room(needed: u64) -> CRefusal
    ensures { result ≡ in_room needed }
{
    CRefusal {
        number: 11,
        values: 1,
        axes: 0,
        axis: 0,
        index: 0,
        extent: 0,
        place: 0,
        count: 0,
        needed,
    }
}

impl From<Refusal> for CRefusal {
    ghost from_gives = { λ refusal result. result ≡ c_refusal (refusal_of refusal) };

    fn from(refusal: Refusal) -> CRefusal {
        match refusal {
            Refusal::DimensionTooSmall { axis, extent } => on_grid(1, 2, axis, 0, extent, 0),
            Refusal::CapacityOverflow => bare(2),
            Refusal::Model => bare(3),
            Refusal::Buffer => bare(4),
            Refusal::OutOfBounds {
                axis,
                index,
                extent,
                axes,
            } => on_grid(5, 4, axis, index, extent, axes),
            Refusal::NonFiniteCoordinate { axis } => on_grid(6, 1, axis, 0, 0, 0),
            Refusal::Ray => bare(7),
            Refusal::RayInList { place, count } => in_list(place, count),
            Refusal::Beams => bare(8),
            Refusal::Frame => bare(9),
            Refusal::Record { offset } => at_place(10, offset),
            Refusal::Room { needed } => in_room(needed),
            Refusal::Sweep { offset } => at_place(12, offset),
            Refusal::Odds => bare(13),
            Refusal::Lists => bare(14),
            Refusal::Cuts => bare(15),
            Refusal::Edition => bare(16),
            Refusal::Profile => bare(18),
            Refusal::Column { column } => at_place(17, column),
            Refusal::Sizes => bare(19),
            Refusal::Charts => bare(20),
            Refusal::Chart => bare(21),
        }
    }
}
