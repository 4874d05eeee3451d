// The words of a line, read one after another. A question is asked even where a word of it cannot be read, with what
// could be read of it, and leaves the map as that does: so a bad word is noted here, as is an answer that is not the
// list's, and neither ends the reading. Nothing here knows what the words are about.
ghost use Rattle.std.specs.Prelude.{◌≤◌, length};

use std::num::{f64_from_bits_with_nan, f64_to_bits_with_nan};

// What is left of a line, and whether all before it could be read and was the list's.
#[derive(Drop)]
pub struct Words<'a> {
    rest: &'a [u8],
    good: bool,
}

// What the list says in one word or in several.
pub trait Word: Copy {
    fn read(words: &mut Words) -> Self;

    fn same(self, said: Self) -> bool;
}

impl<'a> Words<'a> {
    pub fn new(line: &'a [u8]) -> Self {
        Words {
            rest: line,
            good: true,
        }
    }

    // Whether the line agreed to its very end.
    pub fn agreed(&self) -> bool {
        self.good && self.rest.is_empty()
    }

    pub fn spoil(&mut self) {
        self.good = false;
    }

    pub fn require(&mut self, holds: bool) {
        self.good &= holds;
    }

    // Past a word of so many bytes: nothing follows it, or one space.
    fn pass(&mut self, size: usize)
        requires { size ≤ length self.old.rest.now }
    {
        self.rest = match &self.rest[size..] {
            [b' ', rest @ ..] => rest,
            rest => {
                self.require(rest.is_empty());
                rest
            }
        };
    }

    // The next word, whatever it is.
    pub fn word(&mut self) -> &'a [u8] {
        let line = self.rest;
        let end = line.iter().position(|b| *b == b' ').unwrap_or(line.len());
        self.pass(end);
        &line[..end]
    }

    // Whatever is left may be anything.
    pub fn skip(&mut self) {
        self.rest = &[];
    }

    pub fn read<T: Word>(&mut self) -> T {
        T::read(self)
    }

    // As many as there is room for; or the word `all`, and one for all.
    pub fn read_all<T: Word>(&mut self, into: &mut [T]) {
        let Some(rest) = self.rest.strip_prefix(b"all ") else {
            for x in into {
                *x = self.read();
            }
            return;
        };
        self.rest = rest;
        let value = self.read();
        for x in into {
            *x = value;
        }
    }

    pub fn expect<T: Word>(&mut self, value: T) {
        let said = self.read();
        self.require(value.same(said));
    }

    // A word as it stands.
    pub fn expect_text(&mut self, text: &str) {
        let word = text.as_bytes();
        if self.rest.starts_with(word) {
            self.pass(word.len());
        } else {
            self.spoil();
        }
    }
}

// A decimal of one to twenty digits.
impl Word for u64 {
    fn read(words: &mut Words) -> u64 {
        let digits = words
            .rest
            .iter()
            .take(20)
            .take_while(|b| b.is_ascii_digit())
            .count();
        let Some(n) = decimal(&words.rest[..digits]) else {
            words.spoil();
            return 0;
        };
        words.pass(digits);
        words.require(digits > 0);
        n
    }

    fn same(self, said: u64) -> bool {
        self == said
    }
}

// What the digits say, if a u64 holds it.
fn decimal(digits: &[u8]) -> Option<u64> {
    digits.iter().try_fold(0u64, |n, d| {
        let digit = u64::from(d.wrapping_sub(b'0'));
        n.checked_mul(10)?.checked_add(digit)
    })
}

// A decimal below 2^32.
impl Word for u32 {
    fn read(words: &mut Words) -> u32 {
        let n: u64 = words.read();
        u32::try_from(n).unwrap_or_else(|_| {
            words.spoil();
            0
        })
    }

    fn same(self, said: u32) -> bool {
        self == said
    }
}

// The size of the least i64.
const LEAST: u64 = 0x8000_0000_0000_0000;

// A decimal with a sign or none.
impl Word for i64 {
    fn read(words: &mut Words) -> i64 {
        let minus = words.rest.strip_prefix(b"-");
        words.rest = minus.unwrap_or(words.rest);
        let size: u64 = words.read();
        words.require(size < LEAST || minus.is_some() && size == LEAST);
        let n = if size > LEAST { 0 } else { size.cast_signed() };
        if minus.is_some() { n.wrapping_neg() } else { n }
    }

    fn same(self, said: i64) -> bool {
        self == said
    }
}

// 1 or 0.
impl Word for bool {
    fn read(words: &mut Words) -> bool {
        let n: u64 = words.read();
        words.require(n < 2);
        n == 1
    }

    fn same(self, said: bool) -> bool {
        self == said
    }
}

// Sixteen hexadecimal digits, the bits of a float. Two NaNs are the same.
impl Word for f64 {
    fn read(words: &mut Words) -> f64 {
        let Some(bits) = words.rest.get(..16).and_then(hexadecimal) else {
            words.spoil();
            return 0.0;
        };
        words.pass(16);
        f64_from_bits_with_nan(bits)
    }

    fn same(self, said: f64) -> bool {
        f64_to_bits_with_nan(self) == f64_to_bits_with_nan(said)
    }
}

fn hexadecimal(digits: &[u8]) -> Option<u64> {
    digits.iter().try_fold(0u64, |bits, d| {
        let digit = match d {
            b'0'..=b'9' => d - b'0',
            b'a'..=b'f' => d - b'a' + 10,
            _ => return None,
        };
        Some(bits << 4 | u64::from(digit))
    })
}

// No word at all, where there is nothing to say.
impl Word for () {
    fn read(_words: &mut Words) {}

    fn same(self, _said: ()) -> bool {
        true
    }
}
