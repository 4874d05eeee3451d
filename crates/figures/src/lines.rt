// The cells of a line.
use crate::at;
use crate::shown::{Answered, Cell};
use bresenham::{BresenhamLine2, Lines};
use std::{fmt, io};
use types::{Cell2, Extents2, Point2};

// The cells of a line, one after another.
#[derive(Clone, Copy)]
struct Cells(BresenhamLine2);

impl Iterator for Cells {
    type Item = Cell2;

    fn next(&mut self) -> Option<Cell2> {
        let (cell, after) = Extents2::next(self.0)?;
        self.0 = after;
        Some(cell)
    }
}

// At most forty of them.
impl fmt::Display for Cells {
    fn fmt<W: fmt::Write>(&self, f: &mut fmt::Formatter<W>) -> fmt::Result {
        for cell in self.take(40) {
            write!(f, " {}", Cell(cell))?;
        }
        Ok(())
    }
}

fn line(rt: &impl Print, said: &str, start: Point2, end: Point2) -> io::Result<()> {
    let cells = Extents2::plotter(start, end).map(Cells);
    println!(rt; "  line {said}:{}", Answered(cells))
}

pub(crate) fn lines(rt: &impl Print) -> io::Result<()> {
    println!(rt; "Lines")?;
    let figures = [
        (
            "(0.5,0.5) to (3.4,0.5) [x 0, 1, 3]",
            at(0.5, 0.5),
            at(3.4, 0.5),
        ),
        (
            "(0.9,0.5) to (1.1,0.5) [only (1,0)]",
            at(0.9, 0.5),
            at(1.1, 0.5),
        ),
        (
            "(0.5,0.5) to (4.5,2.5) [(0,0) (1,0) (2,1) (3,1) (4,2)]",
            at(0.5, 0.5),
            at(4.5, 2.5),
        ),
        (
            "(0,0.5) to (2-2^-52,0.5) [x 0, 1, 1]",
            at(0.0, 0.5),
            at(1.9999999999999998, 0.5),
        ),
    ];
    for (said, start, end) in figures {
        line(rt, said, start, end)?;
    }
    Ok(())
}
