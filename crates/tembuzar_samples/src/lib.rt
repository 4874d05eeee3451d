// Many sample points in one call, from C, for two and three axes. Each is the entry of sample_list for its axes; only
// the head's and the answer's form is another. It is a library of its own: in one with the call for a single point, the
// code of a sample would stand once for both, behind a call, and each would be slower.
#![tactic(auto)]

ghost use Rattle.std.specs.Float.{binary64};
ghost use Rattle.rules.specs.ManySamples.{sample_all_log_odds_entry};
ghost use Rattle.sample_list.specs.Slots.{slots_of};
ghost use Rattle.c_types.specs.Answers.{Told, c_set};
ghost use Rattle.c_types.specs.Heads.{head2, head3};

use c_types::{CMap2, CMap3, CRefusal};
use grid_map::{GridMap2, GridMap3};
use sample_list::sample_all_log_odds;

#[unsafe(no_mangle)]
pub extern "C" fn tembuzar_sample_all_log_odds2(
    map: CMap2,
    odds: &[f64],
    points: &[f64],
    samples: &mut [f64],
    found: &mut [u8],
) -> CRefusal
    ensures { Told c_set (sample_all_log_odds_entry binary64 (head2 map) points.now odds.now
        (slots_of samples.old found.old))
        result (slots_of samples.new found.new) }
{
    CRefusal::from(sample_all_log_odds(GridMap2::from(map), odds, points, samples, found))
}

#[unsafe(no_mangle)]
pub extern "C" fn tembuzar_sample_all_log_odds3(
    map: CMap3,
    odds: &[f64],
    points: &[f64],
    samples: &mut [f64],
    found: &mut [u8],
) -> CRefusal
    ensures { Told c_set (sample_all_log_odds_entry binary64 (head3 map) points.now odds.now
        (slots_of samples.old found.old))
        result (slots_of samples.new found.new) }
{
    CRefusal::from(sample_all_log_odds(GridMap3::from(map), odds, points, samples, found))
}
