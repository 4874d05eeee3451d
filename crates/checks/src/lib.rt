// The checks of a map's head, in the requirements' order: 1 on all axes, 2, then what the entry uses of 3, 4 and 9; by
// change request 6 with 15 after 3.
#![tactic(auto)]

ghost use Rattle.std.specs.Prelude.{◌≡◌, not, ◌&&◌};
ghost use Rattle.rules.specs.RefusalNumbers.Entries.{head_refusal};
ghost use Rattle.rules.specs.MarksAndFrames.{open_frame};
ghost use Rattle.checks.specs.Checking.{check_of, uses_of, used_refusal};

mod counts;
mod extents;
mod model;
mod uses;

pub use counts::so_many_each;
pub use extents::Checked;
pub use model::{cuts_in_bounds, is_bounded};
use types::{Frame, Refusal};
pub use uses::Uses;

pub fn is_open(frame: Frame) -> bool
    ensures { result ≡ open_frame frame.0 }
{
    let n = frame.0;
    if n > 0 {
        return n <= Frame::HIGHEST.0;
    }
    false
}

// Used, and not as it has to be.
fn fails(used: bool, holds: bool) -> bool
    ensures { result ≡ (used && not holds) }
{
    if used {
        if holds {
            return false;
        }
        return true;
    }
    false
}

// What an entry uses beside the extents, of a map of so many cells whose model and cuts are within their bounds or not.
fn used_check(
    u: Uses,
    model: bool,
    cuts: bool,
    frame: Frame,
    cells: usize,
    odds: usize,
    stamps: usize,
) -> Result<(), Refusal>
    ensures { check_of result ≡ used_refusal (uses_of u) model cuts frame.0 cells odds stamps }
{
    if fails(u.model, model) {
        return Err(Refusal::Model);
    }
    if fails(u.model, cuts) {
        return Err(Refusal::Cuts);
    }
    if fails(u.odds, odds == cells) {
        return Err(Refusal::Buffer);
    }
    if fails(u.stamps, stamps == cells) {
        return Err(Refusal::Buffer);
    }
    if fails(u.frame, is_open(frame)) {
        return Err(Refusal::Frame);
    }
    Ok(())
}

// The head's checks, of a map of any number of axes.
pub fn head_check<E: Checked>(
    u: Uses,
    e: E,
    model: E::Model,
    frame: Frame,
    odds: usize,
    stamps: usize,
) -> Result<(), Refusal>
    ensures { check_of result ≡ head_refusal (uses_of u)
        (record { extents = E.extents e; model = E.model_of e model; frame = frame.0 }) odds stamps }
{
    e.extents_check()?;
    let bounded = e.model_bounded(model);
    let cuts = e.cuts_bounded(model);
    used_check(u, bounded, cuts, frame, e.cells(), odds, stamps)
}
