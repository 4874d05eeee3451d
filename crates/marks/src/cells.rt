// Reading and setting one cell of the lent odds, at a place that `index` found.
ghost use Rattle.std.specs.Prelude.{◌≡◌, ℕ, ◌<◌, length};
ghost use Rattle.rules.specs.RefusalNumbers.{given};
ghost use Rattle.rules.specs.RefusalNumbers.Entries.{read_at, checked_answer};
ghost use Rattle.rules.specs.MarksAndFrames.{set_odds};
ghost use Rattle.rules.specs.TheGridAndItsBounds.{Model};
ghost use Rattle.types.specs.Answers.{place_of, cell_read, set_answer};

use crate::marks::clamp;
use types::Refusal;

// The odds at a place, or nothing off the grid. A place that was found is one of the list's, which has one number per
// cell (refusal 4).
pub fn read_at(odds: &[f64], place: Result<usize, Refusal>) -> Option<f64>
    requires { (i : ℕ) → place_of place ≡ given i → i < length odds.now }
    ensures { cell_read result ≡ read_at odds.now (place_of place) }
{
    let Ok(at) = place else {
        return None;
    };
    Some(odds[at])
}

// Overwrites a cell's odds, bypassing the steps and the stamp; NaN is stored as it is. Of a model its ceiling alone is
// used. The place is one of the list's.
pub fn set_log_odds_at(odds: &mut [f64], at: usize, ceiling: f64, x: f64)
    requires { at < length odds.old }
    ensures { (m : Model) → m.ceiling ≡ ceiling → odds.new ≡ set_odds m at x odds.old }
{
    odds[at] = clamp(-ceiling, ceiling, x);
}

// The same at a place that may be refused, for a number: NaN is refused, after the place. A place that was found is one
// of the list's.
pub fn set_checked_at(
    odds: &mut [f64],
    place: Result<usize, Refusal>,
    ceiling: f64,
    x: f64,
) -> Result<(), Refusal>
    requires { (i : ℕ) → place_of place ≡ given i → i < length odds.old }
    ensures { (m : Model) → m.ceiling ≡ ceiling
        → record { answer = set_answer result; lent = odds.new } ≡ checked_answer m x odds.old (place_of place) }
{
    let at = place?;
    if x != x {
        return Err(Refusal::Odds);
    }
    set_log_odds_at(odds, at, ceiling, x);
    Ok(())
}
