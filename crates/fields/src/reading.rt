// Numbers, floats and the heads of fields, read at a place in lent bytes. Whoever reads a number has seen that its
// bytes are there: `field_here` says so of a whole field.
ghost use Rattle.std.specs.Prelude.{◌≡◌, ◌+◌, ◌≤◌, length, drop};
ghost use Rattle.std.specs.Float.{binary64};
ghost use Rattle.std.specs.Float.Ieee.{of_bits};
ghost use Rattle.rules.specs.Fields.{from_little_endian, field_here};

use crate::layout::{HEAD_SIZE, TAG_SIZE};
use crate::patterns::float_of;

// The two bytes are there.
pub fn u16_at(bytes: &[u8], at: usize) -> u16
    requires { at + 2 ≤ length bytes.now }
    ensures { result ≡ from_little_endian 2 (drop at bytes.now) }
{
    u16::from_le_bytes([bytes[at], bytes[at + 1]])
}

// The four bytes are there.
pub fn u32_at(bytes: &[u8], at: usize) -> u32
    requires { at + 4 ≤ length bytes.now }
    ensures { result ≡ from_little_endian 4 (drop at bytes.now) }
{
    u32::from_le_bytes([bytes[at], bytes[at + 1], bytes[at + 2], bytes[at + 3]])
}

// The eight bytes are there.
pub fn u64_at(bytes: &[u8], at: usize) -> u64
    requires { at + 8 ≤ length bytes.now }
    ensures { result ≡ from_little_endian 8 (drop at bytes.now) }
{
    let b = &bytes[at..at + 8];
    u64::from_le_bytes([b[0], b[1], b[2], b[3], b[4], b[5], b[6], b[7]])
}

// The eight bytes are there.
pub fn f64_at(bytes: &[u8], at: usize) -> f64
    requires { at + 8 ≤ length bytes.now }
    ensures { result ≡ of_bits binary64 (from_little_endian 8 (drop at bytes.now)) }
{
    float_of(u64_at(bytes, at))
}

// Whether a field of this tag and of so many bytes stands whole at a place. Any place may be asked about.
pub fn field_here(bytes: &[u8], at: usize, tag: u8, size: usize) -> bool
    ensures { result ≡ field_here tag size (drop at bytes.now) }
{
    if bytes.len() < at {
        return false;
    }
    let left = bytes.len() - at;
    if left < HEAD_SIZE {
        return false;
    }
    if left - HEAD_SIZE < size {
        return false;
    }
    if bytes[at] == tag {
        return u16_at(bytes, at + TAG_SIZE) as usize == size;
    }
    false
}
