// What is asked of one float: whether it is finite; its whole number as Rust's `as` gives it: toward zero, to the
// nearest end of the range beyond it, 0 for a NaN; and the cell that it can be followed from by whole steps. The 64
// bits are split into sign, exponent and fraction, and the fraction is shifted. Nothing here knows of lines, and of
// grids only that an axis has at most 4096 cells.
#![tactic(auto)]

ghost use Rattle.std.specs.Prelude.{◌≡◌, ◌^◌, ◌<◌, if◌then◌else◌};
ghost use Rattle.std.specs.Float.{binary64};
ghost use Rattle.std.specs.Float.Ieee.{to_unsigned};
ghost use Rattle.rules.specs.Floats.{number_f};
ghost use Rattle.std.specs.Float.Ieee.Scale.{finite};
ghost use Rattle.rules.specs.Coordinates.{truncated};
ghost use Rattle.laws.specs.Floats.Inside.{Followed};
ghost use Rattle.floats.specs.Whole.{whole_part};

// The whole part of a size that the fields `exponent` and `fraction` stand for. From exponent 1087 on it would not fit,
// and a fraction has 52 bits: the callers' tests and masks see to both.
fn whole_part(exponent: u64, fraction: u64) -> u64
    requires fact_1 { exponent < 1087 }
    requires fact_2 { fraction < 2 ^ 52 }
    ensures { result ≡ whole_part exponent fraction }
{
    let digits: u64 = fraction | 0x10_0000_0000_0000;
    if exponent > 1075 {
        return digits << (exponent - 1075);
    }
    let places: u64 = 1075 - exponent;
    if places > 52 {
        return 0;
    }
    digits >> places
}

// A coordinate's cell. Nearly all coordinates have no sign and lie below 4096. Sign and exponent, the twelve bits above
// the fraction, are then below 1035, and the cell is settled from them, before there is any case for a NaN or a large
// value. The test before it is what reading the bits asks for: a NaN's are not fixed.
pub fn cell_of(x: f64) -> i64
    ensures { result ≡ truncated x }
{
    if x == x {
        let bits: u64 = f64::to_bits(x);
        let exponent: u64 = bits >> 52;
        if exponent < 1035 {
            return whole_part(exponent, bits & 0xf_ffff_ffff_ffff) as i64;
        }
    }
    any_cell_of(x)
}

// The cell of any float, case by case.
fn any_cell_of(x: f64) -> i64
    ensures { result ≡ truncated x }
{
    if x != x {
        return 0;
    }
    let bits: u64 = f64::to_bits(x);
    let sign: u64 = bits >> 63;
    let exponent: u64 = (bits >> 52) & 0x7ff;
    let fraction: u64 = bits & 0xf_ffff_ffff_ffff;
    if exponent < 1086 {
        let size = whole_part(exponent, fraction);
        if sign == 0 {
            return size as i64;
        }
        return -(size as i64);
    }
    if sign == 0 {
        return 9223372036854775807;
    }
    -9223372036854775808
}

// A count: nothing below zero.
pub fn count_of(x: f64) -> u64
    ensures { result ≡ to_unsigned 64 x }
{
    if x != x {
        return 0;
    }
    let bits: u64 = f64::to_bits(x);
    let sign: u64 = bits >> 63;
    let exponent: u64 = (bits >> 52) & 0x7ff;
    let fraction: u64 = bits & 0xf_ffff_ffff_ffff;
    if sign != 0 {
        return 0;
    }
    if exponent < 1087 {
        return whole_part(exponent, fraction);
    }
    18446744073709551615
}

// The one or the other, for a test whose outcome is as good as random: which way a beam goes along an axis, say. Both
// are worked out already, so the machine need not guess, and a wrong guess costs more than both.
pub fn chosen(first: bool, a: f64, b: f64) -> f64
    ensures { result ≡ (if first then a else b) }
{
    if first { a } else { b }
}

// A number as a float, to the nearest. A number up to 2^53, as every cell's is, is exact and takes the machine's own
// conversion, which is that of signed numbers.
pub fn number_of(n: u64) -> f64
    ensures { result ≡ number_f binary64 n }
{
    if n < 9007199254740992 {
        return (n as i64) as f64;
    }
    std::num::nearest_u64_to_f64(n)
}

// Neither a NaN nor an infinity.
pub fn is_finite(x: f64) -> bool
    ensures { result ≡ finite x }
{
    if x < 1.0 / 0.0 {
        return -1.0 / 0.0 < x;
    }
    false
}

// What `followed_cell` answers of a coordinate that it does not follow: the number of no cell.
pub const NOT_FOLLOWED: u64 = 18446744073709551615;

// The cell that a coordinate can be followed from: the one that it lies in, where rounding cannot carry it across a
// face as it goes on by whole steps, else `NOT_FOLLOWED`. It is a hint: the contract says that a cell answered is
// right, and allows `NOT_FOLLOWED` of any coordinate. The code answers a cell for all coordinates from +0.0 to below
// 4096 that lie at least 2^-20 below their cell's upper face. -0.0 has the sign of a number below zero, and is not
// followed. As numbers, the 64 bits of such coordinates are those below 4096.0's; all others, signs and infinities too,
// are above.
pub fn followed_cell(x: f64) -> u64
    ensures { Followed binary64 result x }
{
    if x != x {
        return NOT_FOLLOWED;
    }
    let bits: u64 = f64::to_bits(x);
    let exponent: u64 = (bits >> 52) & 0x7ff;
    let fraction: u64 = bits & 0xf_ffff_ffff_ffff;
    if bits >= 0x40b0_0000_0000_0000 {
        return NOT_FOLLOWED;
    }
    let cell = whole_part(exponent, fraction);
    let highest = ((cell as u32) as f64) + (1.0 - 1.0 / 1048576.0);
    if x <= highest {
        return cell;
    }
    NOT_FOLLOWED
}
