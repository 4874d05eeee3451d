// What is promised beyond a single call, under specs/: theorems about the rules and about what calls leave. No crate
// uses this one. Its functions change nothing: their contracts say that whatever a caller lends or hands over meets the
// premises `AreBytes`, `Are64` and `Held` of the record's and the sweep file's theorems.
#![tactic(auto)]

ghost use Rattle.c_types.specs.Heads as CHeads;
ghost use Rattle.grid_map.specs.Heads.{head2, head3};
ghost use Rattle.record_laws.specs.Words.{AreBytes, Is64, Are64, Held};

use c_types::{CMap2, CMap3};
use grid_map::{GridMap2, GridMap3};
use types::Pair;

// A number is a value of binary64.
fn number_held(x: f64)
    ensures { Is64 x }
{}

// Each number of a lent list is one. (That is known of a lent list where a function is called.)
pub fn numbers_held(numbers: &[f64])
    ensures { Are64 numbers.now }
{
    number_held(0.0);
}

pub fn bytes_held(bytes: &[u8])
    ensures { AreBytes bytes.now }
{
    number_held(0.0);
}

fn pair_held(pair: Pair)
    ensures { (Is64 pair.occupied) × (Is64 pair.free) }
{
    number_held(pair.occupied);
    number_held(pair.free);
}

// Every map beside lent odds is one of which the record's theorems speak.
pub fn map_held2(map: GridMap2, odds: &[f64])
    ensures { Held (head2 map) odds.now }
{
    numbers_held(odds);
    number_held(map.model.occupied);
    number_held(map.model.free);
    number_held(map.model.ceiling);
}

pub fn map_held3(map: GridMap3, odds: &[f64])
    ensures { Held (head3 map) odds.now }
{
    numbers_held(odds);
    pair_held(map.model.low);
    pair_held(map.model.middle);
    pair_held(map.model.high);
    number_held(map.model.ceiling);
}

// The same of every head that C hands over.
pub fn c_map_held2(map: CMap2, odds: &[f64])
    ensures { Held (CHeads.head2 map) odds.now }
{
    map_held2(GridMap2::from(map), odds);
}

pub fn c_map_held3(map: CMap3, odds: &[f64])
    ensures { Held (CHeads.head3 map) odds.now }
{
    map_held3(GridMap3::from(map), odds);
}
