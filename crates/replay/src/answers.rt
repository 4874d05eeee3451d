// Holding an answer of the entries to the list's.
use crate::words::{Word, Words};
use types::Refusal;

impl Words<'_> {
    // The refusals that the original has: 5, 6 and 7. It gives no others, so any other differs. Of 5 it names the first
    // axis; the set is ours.
    pub fn expect_refusal(&mut self, refusal: Refusal) {
        self.expect_text("refused");
        match refusal {
            Refusal::OutOfBounds {
                axis,
                index,
                extent,
                axes: _,
            } => {
                self.expect(5u64);
                self.expect(axis);
                self.expect(index);
                self.expect(extent);
            }
            Refusal::NonFiniteCoordinate { axis } => {
                self.expect(6u64);
                self.expect(axis);
            }
            Refusal::Ray => self.expect(7u64),
            Refusal::RayInList { place, count } => {
                self.expect(7u64);
                self.expect(place);
                self.expect(count);
            }
            _ => self.spoil(),
        }
    }

    // = ok and what was answered, or a refusal
    pub fn expect_answer<T: Word>(&mut self, answer: Result<T, Refusal>) {
        self.expect_text("=");
        match answer {
            Ok(value) => {
                self.expect_text("ok");
                self.expect(value);
            }
            Err(refusal) => self.expect_refusal(refusal),
        }
    }

    // = what was found, or nothing. The original refuses none of what is asked so.
    pub fn expect_found<T: Word>(&mut self, answer: Result<Option<T>, Refusal>) {
        self.expect_text("=");
        match answer {
            Ok(Some(value)) => self.expect(value),
            Ok(None) => self.expect_text("nothing"),
            Err(_) => self.spoil(),
        }
    }
}
