// Many sample points on a map: each point, its slot and its mark, 1 for a sample and 0 for nothing.
ghost use Rattle.std.specs.Prelude.{◌≡◌, true, ◌+◌, ◌*◌, ◌≤◌, length};
ghost use Rattle.std.specs.Float.{binary64};
ghost use Rattle.rules.specs.TheGridAndItsBounds.{least_extent, all_at_least, cells};
ghost use Rattle.rules.specs.ManySamples.{found_of, sampled_all, sample_all_log_odds_entry};
ghost use Rattle.types.specs.Answers as Answers;
ghost use Rattle.grid_map.specs.Heads.{head_of};
ghost use Rattle.sample_list.specs.Slots.{slots_of, slots_outcome, stored};

use crate::listed::Listed;
use crate::shape::same_counts;
use checks::Uses;
use grid_map::GridMap;
use types::Refusal;

// A sample into the slot that starts here; the slot of nothing is left alone. The slot is the list's.
fn put_sample<E: Listed>(extents: E, samples: &mut [f64], at: usize, read: Option<E::Sample>) -> u8
    requires { at + length (E.extents extents) + 1 ≤ length samples.old }
    ensures mark { result ≡ found_of (Answers.found_of E.sample_of read) }
    ensures slot { samples.new ≡ stored at (Answers.found_of E.sample_of read) samples.old }
{
    match read {
        None => 0,
        Some(sample) => {
            extents.store(samples, at, sample);
            1
        }
    }
}

// Each point, its slot and its mark. The head has passed its checks and the lists theirs: the entry refuses others with
// 1, 2, 4 and 14.
fn sample_points<E: Listed>(
    extents: E,
    odds: &[f64],
    points: &[f64],
    samples: &mut [f64],
    found: &mut [u8],
)
    requires two_cells { all_at_least least_extent (E.extents extents) ≡ true }
    requires one_per_cell { length odds.now ≡ cells (E.extents extents) }
    requires points_each { length points.now ≡ length (E.extents extents) * length found.old }
    requires slots_each { length samples.old ≡ (length (E.extents extents) + 1) * length found.old }
    ensures { slots_of samples.new found.new
        ≡ sampled_all binary64 (E.extents extents) odds.now points.now
        (slots_of samples.old found.old) }
{
    let axes = E::AXES;
    for place in 0..found.len() {
        let point = extents.listed_point(points, axes * place);
        let read = extents.sample_log_odds(odds, point);
        let mark = put_sample(extents, samples, (axes + 1) * place, read);
        found[place] = mark;
    }
}

// The interpolated log-odds with their gradient at each point: what `sample_log_odds` answers of it, put in its slot;
// the slot of nothing keeps what it held.
pub fn sample_all_log_odds<E: Listed>(
    map: GridMap<E, E::Model>,
    odds: &[f64],
    points: &[f64],
    samples: &mut [f64],
    found: &mut [u8],
) -> Result<(), Refusal>
    ensures { slots_outcome result samples.new found.new
        ≡ sample_all_log_odds_entry binary64 (head_of E.extents E.model_of map) points.now odds.now
        (slots_of samples.old found.old) }
{
    map.check(Uses::SAMPLES, odds.len(), 0)?;
    if same_counts(E::AXES, points.len(), samples.len(), found.len()) {
        sample_points(map.extents, odds, points, samples, found);
        return Ok(());
    }
    Err(Refusal::Lists)
}
