// One beam: its points tried, clipped to the map, and walked along. The original's update_ray, on a head that has
// passed its checks: the entries refuse others.
ghost use Rattle.std.specs.Prelude.{◌≡◌, ◌&&◌, length};
ghost use Rattle.std.specs.Float.{binary64};
ghost use Rattle.laws.specs.Checks.{Ready};
ghost use Rattle.rules.specs.OneBeam.{marks_between, integrated_marks, integrated_beam};
ghost use Rattle.clip.specs.Clips.{clip_of};
ghost use Rattle.grid_map.specs.Heads.{head_of};
ghost use Rattle.marks.specs.Marking.{grid_of};
ghost use Rattle.beam.specs.Applying.{Beamed};

use crate::beams::Beams;
use crate::walk::walk_drawn;
use clip::clip_beam;
use grid_map::GridMap;
use types::{Clipped, Refusal};

fn both(a: bool, b: bool) -> bool
    ensures { result ≡ (a && b) }
{
    if a {
        return b;
    }
    false
}

// What clipping left of a beam: nothing, or a line to walk along.
fn integrate_clipped<E: Beams>(
    map: GridMap<E, E::Model>,
    odds: &mut [f64],
    stamps: &mut [u32],
    clip: Option<Clipped<E::Point>>,
    hit: bool,
) -> Result<u64, Refusal>
    requires { Ready (head_of E.extents E.model_of map) (length odds.old) (length stamps.old) }
    ensures { Beamed (integrated_marks binary64 (E.model_of map.extents map.model) map.frame.0
        (grid_of odds.old stamps.old) (marks_between binary64 (E.extents map.extents) hit (clip_of E.point clip)))
        map.frame.0 stamps.old result odds.new stamps.new }
{
    let Some(c) = clip else {
        return Ok(0);
    };
    let line = E::plotter(c.entry, c.exit)?;
    Ok(walk_drawn(map, odds, stamps, line, both(hit, c.inside)))
}

pub fn integrate<E: Beams>(
    map: GridMap<E, E::Model>,
    odds: &mut [f64],
    stamps: &mut [u32],
    beam: E::Beam,
) -> Result<u64, Refusal>
    requires { Ready (head_of E.extents E.model_of map) (length odds.old) (length stamps.old) }
    ensures { Beamed (integrated_beam binary64 (E.extents map.extents) (E.model_of map.extents map.model) map.frame.0
        (E.beam_of beam) (grid_of odds.old stamps.old)) map.frame.0 stamps.old result odds.new stamps.new }
{
    let origin = E::origin(beam);
    let endpoint = E::endpoint(beam);
    let hit = E::is_hit(beam);
    let clip = clip_beam(map.extents, origin, endpoint).ok_or(Refusal::Ray)?;
    integrate_clipped(map, odds, stamps, clip, hit)
}
