// The fields that edition 2 adds, each written wherever it is to stand: those bytes change and no other. Whoever writes
// has seen that there is room. Those of edition 1 are record_writer's.
ghost use Rattle.std.specs.Prelude.{◌≡◌, [], ◌∷◌, ◌+◌, ◌≤◌, ◌<◌, length};
ghost use Rattle.std.proofs.lemmas.List.Edits.{sets};
ghost use Rattle.rules.specs.Fields.{field, field_size};
ghost use Rattle.rules.specs.MapRecord.{extent_bytes};
ghost use Rattle.rules.specs.EditionTwo.{byte_length, edition_tag, edition_two, open_tag, open_byte};
ghost use Rattle.rules.specs.EditionTwo.{cuts_tag, cuts_length};
ghost use Rattle.types.specs.Models.{cuts_of};

use fields::{
    BYTE_LENGTH, CUTS_LENGTH, CUTS_TAG, EDITION_TAG, EDITION_TWO, HEAD_SIZE, OPEN_TAG, SHORT_SIZE,
    put_field, put_u16,
};
use types::Cuts;

pub fn put_edition(out: &mut [u8], at: usize)
    requires room { at + field_size byte_length ≤ length out.old }
    ensures { out.new ≡ sets out.old at (field edition_tag (edition_two ∷ [])) }
{
    put_field(out, at, EDITION_TAG, BYTE_LENGTH);
    out[at + HEAD_SIZE] = EDITION_TWO;
}

// Whether the sweep is open.
pub fn put_mark(out: &mut [u8], at: usize, running: bool)
    requires room { at + field_size byte_length ≤ length out.old }
    ensures { out.new ≡ sets out.old at (field open_tag (open_byte running ∷ [])) }
{
    put_field(out, at, OPEN_TAG, BYTE_LENGTH);
    out[at + HEAD_SIZE] = running as u8;
}

// The cuts have passed, so two bytes hold each.
pub fn put_cuts(out: &mut [u8], at: usize, cuts: Cuts)
    requires room { at + field_size (cuts_length 2) ≤ length out.old }
    requires first_short { cuts.first < 65_536 }
    requires second_short { cuts.second < 65_536 }
    ensures { out.new ≡ sets out.old at (field cuts_tag (extent_bytes (cuts_of cuts))) }
{
    let first = at + HEAD_SIZE;
    let second = first + SHORT_SIZE;
    put_field(out, at, CUTS_TAG, CUTS_LENGTH);
    put_u16(out, first, cuts.first as u16);
    put_u16(out, second, cuts.second as u16);
}
