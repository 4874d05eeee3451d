// The list's current map, and a line of the list given to what its kind asks.
use crate::axes::Asked;
use crate::cells::Cells;
use crate::changing::change;
use crate::kinds::Kind;
use crate::lines::{line, truncate};
use crate::looking::{cell, clip, read, sample, stencil};
use crate::tally::Tally;
use crate::words::Words;
use grid_map::{GridMap, GridMap2, GridMap3};
use types::Frame;

#[derive(Clone, Copy)]
enum Map {
    Nothing,
    Two(GridMap2),
    Three(GridMap3),
}

#[derive(Drop)]
pub struct List {
    map: Map,
    cells: Cells,
    pub tally: Tally,
}

// e0 .. eN-1 OCCUPIED FREE CEILING FRAME
fn read_head<E: Asked>(words: &mut Words, cells: &mut Cells) -> GridMap<E, E::Model> {
    let extents: E = words.read();
    let model = E::model(words.read());
    let frame = Frame(words.read());
    let count = extents.room();
    words.require(count > 0);
    cells.resize(count);
    GridMap {
        extents,
        model,
        frame,
    }
}

// A question on a map. The frame and every cell are held to the list's after those that may change them.
fn ask<E: Asked>(kind: Kind, words: &mut Words, map: &mut GridMap<E, E::Model>, cells: &mut Cells) {
    match kind {
        Kind::Read => read(words, *map, cells.odds()),
        Kind::Cell => cell(words, *map),
        Kind::Stencil => stencil(words, map.extents),
        Kind::Sample => sample(words, *map, cells.odds()),
        Kind::Clip => clip(words, map.extents),
        _ => {
            let before = *cells;
            change(kind, words, map, cells);
            cells.expect_changes(before, map.frame, words);
        }
    }
}

impl List {
    pub fn new() -> List {
        List {
            map: Map::Nothing,
            cells: Cells::new(),
            tally: Tally::new(),
        }
    }

    // map N e0 .. eN-1 OCCUPIED FREE CEILING FRAME
    fn read_map(&mut self, words: &mut Words) {
        let axes: u64 = words.read();
        if axes == 3 {
            self.map = Map::Three(read_head(words, &mut self.cells));
        } else {
            words.require(axes == 2);
            self.map = Map::Two(read_head(words, &mut self.cells));
        }
    }

    fn ask(&mut self, kind: Kind, words: &mut Words) {
        match kind {
            Kind::Map => self.read_map(words),
            // odds X X X ..., or odds all X
            Kind::Odds => words.read_all(self.cells.odds()),
            // stamps S S S ..., or stamps all S
            Kind::Stamps => words.read_all(self.cells.stamps()),
            Kind::Line => line(words),
            Kind::Truncate => truncate(words),
            Kind::Comment => words.skip(),
            Kind::Malformed => words.spoil(),
            _ => match &mut self.map {
                Map::Nothing => words.spoil(),
                Map::Two(map) => ask(kind, words, map, &mut self.cells),
                Map::Three(map) => ask(kind, words, map, &mut self.cells),
            },
        }
    }

    // One line of the list, counted.
    pub fn line(&mut self, line: &[u8]) {
        let mut words = Words::new(line);
        let kind = Kind::of(words.word());
        self.ask(kind, &mut words);
        self.tally.add(kind, words.agreed());
    }
}
