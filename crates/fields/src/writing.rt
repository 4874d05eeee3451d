// Numbers, floats and the heads of fields, written at a place in lent bytes: those bytes change and no other. Whoever
// writes has seen that there is room (refusal 11).
ghost use Rattle.std.specs.Prelude.{◌≡◌, ◌∷◌, ◌+◌, ◌*◌, ◌≤◌, ◌<◌, length};
ghost use Rattle.std.specs.Float.{binary64};
ghost use Rattle.std.specs.Float.Ieee.{to_bits};
ghost use Rattle.std.proofs.lemmas.List.Edits.{sets};
ghost use Rattle.rules.specs.Fields.{little_endian, short_size, word_size, float_size, float_bytes, head_size};
ghost use Rattle.rules.specs.EditionTwo.{stamp_bytes};

use crate::layout::{FLOAT_SIZE, TAG_SIZE, WORD_SIZE};
use crate::patterns::bits_of;

// There is room for the two bytes.
pub fn put_u16(out: &mut [u8], at: usize, n: u16)
    requires { at + 2 ≤ length out.old }
    ensures { out.new ≡ sets out.old at (little_endian 2 n) }
{
    out[at..at + 2].copy_from_slice(&n.to_le_bytes());
}

// There is room for the four bytes.
pub fn put_u32(out: &mut [u8], at: usize, n: u32)
    requires { at + 4 ≤ length out.old }
    ensures { out.new ≡ sets out.old at (little_endian 4 n) }
{
    out[at..at + 4].copy_from_slice(&n.to_le_bytes());
}

// There is room for the eight bytes.
fn put_u64(out: &mut [u8], at: usize, n: u64)
    requires { at + 8 ≤ length out.old }
    ensures { out.new ≡ sets out.old at (little_endian 8 n) }
{
    out[at..at + 8].copy_from_slice(&n.to_le_bytes());
}

// There is room for the eight bytes.
pub fn put_f64(out: &mut [u8], at: usize, x: f64)
    requires { at + 8 ≤ length out.old }
    ensures { out.new ≡ sets out.old at (little_endian 8 (to_bits binary64 x)) }
{
    put_u64(out, at, bits_of(x));
}

// Floats, one after another. There is room for them.
pub fn put_floats(out: &mut [u8], at: usize, numbers: &[f64])
    requires room { at + float_size * length numbers.now ≤ length out.old }
    ensures { out.new ≡ sets out.old at (float_bytes numbers.now) }
{
    let mut here = at;
    for x in numbers {
        put_f64(out, here, *x);
        here += FLOAT_SIZE;
    }
}

// Numbers of 32 bits, one after another. There is room for them.
pub fn put_words(out: &mut [u8], at: usize, numbers: &[u32])
    requires room { at + word_size * length numbers.now ≤ length out.old }
    ensures { out.new ≡ sets out.old at (stamp_bytes numbers.now) }
{
    let mut here = at;
    for n in numbers {
        put_u32(out, here, *n);
        here += WORD_SIZE;
    }
}

// The tag and the length of a field; its bytes come after them. There is room for both, and two bytes hold the length.
pub fn put_field(out: &mut [u8], at: usize, tag: u8, size: usize)
    requires room { at + head_size ≤ length out.old }
    requires short { size < 65_536 }
    ensures { out.new ≡ sets out.old at (tag ∷ little_endian short_size size) }
{
    out[at] = tag;
    put_u16(out, at + TAG_SIZE, size as u16);
}
