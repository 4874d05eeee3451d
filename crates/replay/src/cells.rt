// The cells of a map before and after a question. The list says how many cells changed, which, and to what. As many
// have to have changed; and written into the cells from before, they have to make them the cells after: so every cell
// that the list does not name is as it was.
use crate::words::{Word, Words};
use types::Frame;

// The most cells that a map of the list may have.
pub const MOST: usize = 256;

// The lists that are lent to the entries: room for the most cells, of which the first are the map's.
#[derive(Clone, Copy)]
pub struct Cells {
    odds: [f64; MOST],
    stamps: [u32; MOST],
    count: usize,
}

impl Cells {
    pub fn new() -> Cells {
        Cells {
            odds: [0.0; MOST],
            stamps: [0; MOST],
            count: 0,
        }
    }

    // Those of another map. They hold what stood in their places before.
    pub fn resize(&mut self, count: usize) {
        self.count = count.min(MOST);
    }

    pub fn lists(&mut self) -> (&mut [f64], &mut [u32]) {
        let Cells {
            odds,
            stamps,
            count,
        } = self;
        let count = (*count).min(MOST);
        (&mut odds[..count], &mut stamps[..count])
    }

    pub fn odds(&mut self) -> &mut [f64] {
        self.lists().0
    }

    pub fn stamps(&mut self) -> &mut [u32] {
        self.lists().1
    }

    // How many are not as before.
    fn changed(&self, before: &Cells) -> u64 {
        let odds = self.odds.iter().zip(&before.odds).map(|(x, y)| x.same(*y));
        let stamps = self.stamps.iter().zip(&before.stamps).map(|(n, m)| n == m);
        odds.zip(stamps)
            .take(self.count)
            .filter(|same| *same != (true, true))
            .count() as u64
    }

    // One changed cell: FLAT ODDS STAMP.
    fn read_change(&mut self, words: &mut Words) {
        let at: u64 = words.read();
        let (x, stamp) = (words.read(), words.read());
        let (odds, stamps) = self.lists();
        match odds.iter_mut().zip(stamps).nth(at as usize) {
            Some(cell) => (*cell.0, *cell.1) = (x, stamp),
            None => words.spoil(),
        }
    }

    // frame FRAME changed K, and K changed cells: as many as changed.
    pub fn expect_changes(&self, mut before: Cells, frame: Frame, words: &mut Words) {
        let changed = self.changed(&before);
        words.expect_text("frame");
        words.expect(frame.0);
        words.expect_text("changed");
        words.expect(changed);
        for _ in 0..changed {
            before.read_change(words);
        }
        words.require(self.changed(&before) == 0);
    }
}
