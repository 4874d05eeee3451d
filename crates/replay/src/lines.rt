// The questions without a map: a line's cells, and a float's truncations.
use crate::axes::Asked;
use crate::words::Words;
use floats::{cell_of, count_of};
use types::{Extents2, Extents3};

// The list has at most forty cells of a line, and says how many.
const MOST_CELLS: u64 = 40;

fn expect_line<E: Asked>(words: &mut Words) {
    let start = words.read();
    let end = words.read();
    words.expect_text("=");
    let mut line = match E::plotter(start, end) {
        Ok(line) => line,
        Err(refusal) => return words.expect_refusal(refusal),
    };
    let listed = E::remaining(line).min(MOST_CELLS);
    E::expect_head(words, line);
    words.expect(listed);
    for _ in 0..listed {
        let Some((cell, after)) = E::next(line) else {
            return words.spoil();
        };
        words.expect(cell);
        line = after;
    }
}

// line N P P = PRIMARY REMAINING P K CxK, or refused 7
pub fn line(words: &mut Words) {
    match words.read::<u64>() {
        2 => expect_line::<Extents2>(words),
        3 => expect_line::<Extents3>(words),
        _ => words.spoil(),
    }
}

// truncate X = CELL COUNT
pub fn truncate(words: &mut Words) {
    let x = words.read();
    words.expect_text("=");
    words.expect(cell_of(x));
    words.expect(count_of(x));
}
