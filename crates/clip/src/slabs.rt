// One axis's part of clipping a beam to the map: its slab, whether both ends lie beyond its upper face, the clamp, and
// a point of the beam. `clips` joins two or three of them.
ghost use Rattle.std.specs.Prelude.{◌≡◌, ◌&&◌};
ghost use Rattle.std.specs.Float.{binary64};
ghost use Rattle.std.specs.Float.Ieee.{le, add, mul};
ghost use Rattle.rules.specs.Floats.{number_f};
ghost use Rattle.rules.specs.OneBeam as OneBeam;
ghost use Rattle.clip.specs.Spans.{span_of, passage_of};

use floats::chosen;

// The fractions of a beam between which it lies in the slabs so far.
#[derive(Clone, Copy)]
pub struct Span {
    pub entry: f64,
    pub exit: f64,
}

impl Span {
    pub const WHOLE: Span = Span {
        entry: 0.0,
        exit: 1.0,
    };
}

fn larger_of(a: f64, b: f64) -> f64
    ensures { result ≡ OneBeam.larger_of a b }
{
    if a < b { b } else { a }
}

fn smaller_of(a: f64, b: f64) -> f64
    ensures { result ≡ OneBeam.smaller_of a b }
{
    if b < a { b } else { a }
}

fn cut_to(near: f64, far: f64, s: Span) -> Option<Span>
    ensures { passage_of result ≡ OneBeam.cut_to near far (span_of s) }
{
    let entry = larger_of(s.entry, near);
    let exit = smaller_of(s.exit, far);
    if entry > exit {
        return None;
    }
    Some(Span { entry, exit })
}

// One slab. Parallel to it, a beam is either wholly inside or misses.
pub fn slab(extent: u64, origin: f64, direction: f64, s: Span) -> Option<Span>
    ensures { passage_of result ≡ OneBeam.slab binary64 extent origin direction (span_of s) }
{
    let limit = std::num::nearest_u64_to_f64(extent);
    if direction == 0.0 {
        if origin < 0.0 {
            return None;
        }
        if origin >= limit {
            return None;
        }
        return Some(s);
    }
    let near = (0.0 - origin) / direction;
    let far = (limit - origin) / direction;
    let backwards = near > far;
    cut_to(
        chosen(backwards, far, near),
        chosen(backwards, near, far),
        s,
    )
}

// Both ends beyond the upper face of an axis: the slabs are closed and the cells half-open, so such a beam lies within
// the face.
pub fn beyond(extent: u64, entry: f64, exit: f64) -> bool
    ensures { result ≡ (le (number_f binary64 extent) entry && le (number_f binary64 extent) exit) }
{
    let limit = std::num::nearest_u64_to_f64(extent);
    if entry >= limit {
        return exit >= limit;
    }
    false
}

// Faces address cells off the map, so points are clamped half a cell short of the upper one; NaN stays.
pub fn clamp_axis(extent: u64, x: f64) -> f64
    ensures { result ≡ OneBeam.clamp_axis binary64 extent x }
{
    let top = std::num::nearest_u64_to_f64(extent) - 0.5;
    if x < 0.0 {
        return 0.0;
    }
    if x > top {
        return top;
    }
    x
}

pub fn point_on(origin: f64, direction: f64, t: f64) -> f64
    ensures { result ≡ add binary64 origin (mul binary64 direction t) }
{
    origin + direction * t
}
