// The questions that only look at the map: each reads its words, asks, and holds the answer to the list's.
use crate::axes::Asked;
use crate::words::Words;
use clip::clip_segment;
use grid_map::GridMap;

// read C = X, or nothing
pub fn read<E: Asked>(words: &mut Words, map: GridMap<E, E::Model>, odds: &[f64]) {
    let cell = words.read();
    words.expect_found(map.log_odds_at(odds, cell));
}

// cell P = ok C, or refused 5 AXIS INDEX EXTENT, or refused 6 AXIS
pub fn cell<E: Asked>(words: &mut Words, map: GridMap<E, E::Model>) {
    let point = words.read();
    words.expect_answer(map.cell_containing(point));
}

// stencil P = FLAT P, or nothing
pub fn stencil<E: Asked>(words: &mut Words, extents: E) {
    let point = words.read();
    words.expect_text("=");
    extents.expect_stencil(words, point);
}

// sample P = X P, or nothing
pub fn sample<E: Asked>(words: &mut Words, map: GridMap<E, E::Model>, odds: &[f64]) {
    let point = words.read();
    words.expect_found(map.sample_log_odds(odds, point));
}

// clip P P = P P 1|0, or miss: both points after the clamp, and whether the end lay inside
pub fn clip<E: Asked>(words: &mut Words, extents: E) {
    let origin = words.read();
    let endpoint = words.read();
    words.expect_text("=");
    let Some(clipped) = clip_segment(extents, origin, endpoint) else {
        return words.expect_text("miss");
    };
    let entry = words.read();
    words.require(E::alike(clipped.entry, entry));
    let exit = words.read();
    words.require(E::alike(clipped.exit, exit));
    words.expect(clipped.inside);
}
