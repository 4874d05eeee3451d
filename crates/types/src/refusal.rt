// Why an entry refused: a case for each line of the requirements' table and for each number of a change request.
// `specs/Refusals.antt` gives each case's number and values.

#[derive(Clone, Copy, Debug, PartialEq, Eq)]
pub enum Refusal {
    // An axis is shorter than the two cells that a stencil needs.
    DimensionTooSmall {
        axis: u64,
        extent: u64,
    },
    // An axis is too long, or there are too many cells.
    CapacityOverflow,
    // A step or the ceiling is out of its bounds.
    Model,
    // The lent odds or stamps are not one per cell.
    Buffer,
    // A cell or point is off the grid: the first axis that is, and in `axes` all that are, axis k as bit k.
    OutOfBounds {
        axis: u64,
        index: i64,
        extent: u64,
        axes: u16,
    },
    // A coordinate is NaN or infinite.
    NonFiniteCoordinate {
        axis: u64,
    },
    // The beam cannot be plotted.
    Ray,
    // The same, in a list of beams: its place, and the count of the beams before it.
    RayInList {
        place: u64,
        count: u64,
    },
    // The flat list is not a list of beams.
    Beams,
    // No sweep has this frame.
    Frame,
    // The map record is broken at this offset.
    Record {
        offset: u64,
    },
    // The output is shorter than the record.
    Room {
        needed: u64,
    },
    // The sweep file is broken at this offset.
    Sweep {
        offset: u64,
    },
    // The odds are not a number.
    Odds,
    // The lists of points, samples and marks are not for the same number of points.
    Lists,
    // The heights at which bands begin are not 0 < first < second < the last extent, or the map has none.
    Cuts,
    // The record is one of edition 2 that edition 1 cannot hold: its sweep is open, or its pairs are unequal.
    Edition,
    // The vertical beam is outside its profile.
    Profile,
    // This column of a chart, the first such, holds NaN.
    Column {
        column: u64,
    },
    // A report, a chart or a second report is not of the size that it has to be.
    Sizes,
    // A report would have more charts than it can.
    Charts,
    // A chart or a report that cannot be one.
    Chart,
}
