// What differs between the questions of two axes and of three: how the list writes points, cells and the like, and what
// of a stencil and of a line it has.
use crate::cells::MOST;
use crate::words::{Word, Words};
use bresenham::{BresenhamLine2, BresenhamLine3};
use flat_list::Listed;
use sample::Samples;
use types::{Bands, Cuts, Extents2, Extents3, Model, Pair, Point2, Point3};

pub trait Asked: Listed<Point: Word, Cell: Word, Beam: Word, Sample: Word> + Word {
    // The number of cells, or 0 where there is no room for them.
    fn room(self) -> usize;

    // The original has one pair of steps.
    fn model(plain: Model) -> Self::Model;

    // Whether two points are the same, but that +0 and -0 are equal.
    fn alike(a: Self::Point, b: Self::Point) -> bool;

    // = FLAT P, or nothing: the flat index, taken apart by the extents, has to name the stencil's low corner.
    fn expect_stencil(self, words: &mut Words, point: Self::Point);

    // PRIMARY REMAINING P, the head of a line's answer: P are the increments.
    fn expect_head(words: &mut Words, line: Self::Line);
}

fn within_room(cells: u64) -> usize {
    let cells = cells as usize;
    if cells > MOST { 0 } else { cells }
}

// +0 and -0 both give +0.
fn alike(a: f64, b: f64) -> bool {
    (a + 0.0).same(b + 0.0)
}

impl Asked for Extents2 {
    fn room(self) -> usize {
        within_room(self.x.saturating_mul(self.y))
    }

    fn model(plain: Model) -> Model {
        plain
    }

    fn alike(a: Point2, b: Point2) -> bool {
        alike(a.x, b.x) && alike(a.y, b.y)
    }

    #[tactic(auto, unfolding(rules::specs::TheGridAndItsBounds::all_at_least))]
    fn expect_stencil(self, words: &mut Words, point: Point2) {
        if self.x < 2 || self.y < 2 {
            return words.spoil();
        }
        let Some(stencil) = self.stencil_containing(point) else {
            return words.expect_text("nothing");
        };
        let flat: u64 = words.read();
        words.require(flat % self.x == stencil.x.cell);
        words.require(flat / self.x == stencil.y.cell);
        words.expect(stencil.x.offset);
        words.expect(stencil.y.offset);
    }

    fn expect_head(words: &mut Words, line: BresenhamLine2) {
        words.expect(line.primary);
        words.expect(line.remaining);
        words.expect(line.x.increment);
        words.expect(line.y.increment);
    }
}

impl Asked for Extents3 {
    fn room(self) -> usize {
        within_room(self.x.saturating_mul(self.y).saturating_mul(self.z))
    }

    // Every band has the pair; the cuts do not matter then, and these fit every map of the list.
    fn model(plain: Model) -> Bands {
        let pair = Pair {
            occupied: plain.occupied,
            free: plain.free,
        };
        Bands {
            low: pair,
            middle: pair,
            high: pair,
            ceiling: plain.ceiling,
            cuts: Cuts {
                first: 1,
                second: 2,
            },
        }
    }

    fn alike(a: Point3, b: Point3) -> bool {
        alike(a.x, b.x) && alike(a.y, b.y) && alike(a.z, b.z)
    }

    #[tactic(auto, unfolding(rules::specs::TheGridAndItsBounds::all_at_least))]
    fn expect_stencil(self, words: &mut Words, point: Point3) {
        if self.x < 2 || self.y < 2 || self.z < 2 {
            return words.spoil();
        }
        let Some(stencil) = self.stencil_containing(point) else {
            return words.expect_text("nothing");
        };
        let flat: u64 = words.read();
        words.require(flat % self.x == stencil.x.cell);
        words.require(flat / self.x % self.y == stencil.y.cell);
        words.require(flat / self.x / self.y == stencil.z.cell);
        words.expect(stencil.x.offset);
        words.expect(stencil.y.offset);
        words.expect(stencil.z.offset);
    }

    fn expect_head(words: &mut Words, line: BresenhamLine3) {
        words.expect(line.primary);
        words.expect(line.remaining);
        words.expect(line.x.increment);
        words.expect(line.y.increment);
        words.expect(line.z.increment);
    }
}
