// A record of edition 2, where its fields stand, and its damaged copies.
ghost use Rattle.std.specs.Prelude.{◌≡◌, ◌<◌, ◌≤◌, IfSome, ◌-◌};
ghost use Rattle.std.specs.Iterator.{at_most};
ghost use Rattle.damaged_records.specs.declared.record.TheConstants.{ROOM};

use fields::{HEAD_SIZE, SHORT_SIZE, u16_at};

const TAG_SIZE: usize = HEAD_SIZE - SHORT_SIZE;

// The bytes of the longest record, and one more.
pub const ROOM: usize = 296;

// The bytes after the record's are 0.
#[derive(Clone, Copy)]
pub struct Record {
    pub bytes: [u8; ROOM],
    pub size: usize,
    ghost one_more: { size < ROOM },
}

// Where a field stands in a record.
#[derive(Clone, Copy)]
pub struct Field {
    pub from: usize,
    pub to: usize,
    ghost some_bytes: { from < to },
    ghost in_room: { to < ROOM },
}

impl Record {
    pub fn whole(&self) -> &[u8] {
        &self.bytes[..self.size]
    }

    pub fn one_byte_more(&self) -> &[u8] {
        &self.bytes[..self.size + 1]
    }

    // One byte with these of its bits exchanged.
    pub fn with_byte_changed(mut self, at: usize, mask: u8) -> Self
        requires { at < ROOM }
    {
        self.bytes[at] ^= mask;
        self
    }

    // Two neighbouring fields exchanged: the second comes first.
    pub fn with_fields_exchanged(mut self, first: Field, second: Field) -> Self
        requires { second.from ≡ first.to }
    {
        self.bytes[first.from..second.to].rotate_left(second.from - first.from);
        self
    }

    // The field that begins here. It ends as its length says, at the record's end at most.
    pub fn field_at(&self, at: usize) -> Option<Field>
        ensures from { IfSome result (λ f. f.from ≡ at) }
        ensures to { IfSome result (λ f. f.to ≤ self.now.size) }
    {
        if at >= self.size {
            return None;
        }
        let to = if self.size - at < HEAD_SIZE {
            self.size
        } else {
            let length = u16_at(&self.bytes, at + TAG_SIZE) as usize;
            self.size.min(at + HEAD_SIZE + length)
        };
        Some(Field { from: at, to })
    }

    pub fn fields(&self) -> Fields<'_> {
        Fields {
            record: self,
            at: 0,
        }
    }
}

// The fields from a place on, one after another.
#[derive(Drop)]
pub struct Fields<'a> {
    record: &'a Record,
    at: usize,
}

impl Iterator for Fields<'_> {
    type Item = Field;

    ghost remaining = { λ s. at_most (ROOM - s.at) };

    fn next(&mut self) -> Option<Field> {
        let field = self.record.field_at(self.at)?;
        self.at = field.to;
        Some(field)
    }
}
