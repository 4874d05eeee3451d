// How what an entry answers is printed. Odds have two decimals; those of the figures have no more.
use std::fmt;
use types::{Cell2, MapSample2, Refusal};

// What was asked for, or the refusal.
#[derive(Drop)]
pub(crate) struct Answered<T>(pub(crate) Result<T, Refusal>);

impl<T: fmt::Display> fmt::Display for Answered<T> {
    fn fmt<W: fmt::Write>(&self, f: &mut fmt::Formatter<W>) -> fmt::Result {
        match &self.0 {
            Ok(x) => write!(f, "{x}"),
            Err(r) => write!(f, "{}", Refused(*r)),
        }
    }
}

#[derive(Clone, Copy)]
pub(crate) struct Refused(pub(crate) Refusal);

impl fmt::Display for Refused {
    fn fmt<W: fmt::Write>(&self, f: &mut fmt::Formatter<W>) -> fmt::Result {
        match self.0 {
            Refusal::OutOfBounds {
                axis,
                index,
                extent,
                axes,
            } => write!(
                f,
                "refused 5, axis {axis}, index {index}, extent {extent}, set {axes}"
            ),
            Refusal::Ray => write!(f, "refused 7"),
            _ => write!(f, "refused otherwise"),
        }
    }
}

#[derive(Clone, Copy)]
pub(crate) struct Cell(pub(crate) Cell2);

impl fmt::Display for Cell {
    fn fmt<W: fmt::Write>(&self, f: &mut fmt::Formatter<W>) -> fmt::Result {
        write!(f, "({},{})", self.0.x, self.0.y)
    }
}

// How many marks changed a cell.
#[derive(Clone, Copy)]
pub(crate) struct Count(pub(crate) u64);

impl fmt::Display for Count {
    fn fmt<W: fmt::Write>(&self, f: &mut fmt::Formatter<W>) -> fmt::Result {
        write!(f, "count {};", self.0)
    }
}

// The odds of a cell, if it is on the map.
#[derive(Clone, Copy)]
pub(crate) struct Odds(pub(crate) Option<f64>);

impl fmt::Display for Odds {
    fn fmt<W: fmt::Write>(&self, f: &mut fmt::Formatter<W>) -> fmt::Result {
        match self.0 {
            Some(x) => write!(f, "{x:.2}"),
            None => write!(f, "nothing"),
        }
    }
}

// A sample at a point, if there is one.
#[derive(Clone, Copy)]
pub(crate) struct Sample(pub(crate) Option<MapSample2>);

impl fmt::Display for Sample {
    fn fmt<W: fmt::Write>(&self, f: &mut fmt::Formatter<W>) -> fmt::Result {
        match self.0 {
            Some(MapSample2 { value, gradient }) => write!(
                f,
                "{value:.2}, gradient ({:.2},{:.2})",
                gradient.x, gradient.y
            ),
            None => write!(f, "nothing"),
        }
    }
}
