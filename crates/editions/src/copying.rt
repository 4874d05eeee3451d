// Bytes copied from one list to another, and the fields that both editions have, copied as they stand.
ghost use Rattle.std.specs.Prelude.{◌≡◌, [], ◌∷◌, ◌++◌, ◌+◌, ◌-◌, ◌≤◌, length, take, drop};
ghost use Rattle.std.proofs.lemmas.List.Edits.{sets};
ghost use Rattle.rules.specs.Fields.{field, field_size};
ghost use Rattle.rules.specs.MapRecord.{frame_length};
ghost use Rattle.rules.specs.EditionTwo.{byte_length, edition_tag, edition_two, open_tag};

use edition_writer::{put_edition, put_mark};
use fields::{BYTE_SIZE, FRAME_SIZE};

// So many bytes of a list, from a place on. They are the list's, and there is room for them. Byte by byte: the library
// for C asks for no `memmove`, which std's method needs.
fn copy_bytes(out: &mut [u8], at: usize, bytes: &[u8], from: usize, count: usize)
    requires room { at + count ≤ length out.old }
    requires all_there { from + count ≤ length bytes.now }
    ensures { out.new ≡ sets out.old at (take count (drop from bytes.now)) }
{
    for i in 0..count {
        out[at + i] = bytes[from + i];
    }
}

// The edition, and an edition 1 record's first fields, so many bytes. There is room for them.
pub fn put_start(out: &mut [u8], bytes: &[u8], size: usize)
    requires room { field_size byte_length + size ≤ length out.old }
    requires all_there { size ≤ length bytes.now }
    ensures { out.new
        ≡ sets out.old 0 (field edition_tag (edition_two ∷ []) ++ take size bytes.now) }
{
    put_edition(out, 0);
    copy_bytes(out, BYTE_SIZE, bytes, 0, size);
}

// An edition 1 record's fields from its frame's on, with the mark of a closed sweep after it. There is room for them.
pub fn put_rest(out: &mut [u8], at: usize, bytes: &[u8], frame: usize)
    requires room { at + (length bytes.now - frame) + field_size byte_length ≤ length out.old }
    requires all_there { frame + field_size frame_length ≤ length bytes.now }
    ensures { out.new
        ≡ sets out.old at (take (field_size frame_length) (drop frame bytes.now) ++ field open_tag (0 ∷ [])
        ++ drop (frame + field_size frame_length) bytes.now) }
{
    let mark = at + FRAME_SIZE;
    let rows = frame + FRAME_SIZE;
    copy_bytes(out, at, bytes, frame, FRAME_SIZE);
    put_mark(out, mark, false);
    copy_bytes(out, mark + BYTE_SIZE, bytes, rows, bytes.len() - rows);
}

// The fields that edition 1 has too of a closed record of edition 2: those from the extents' on, so many bytes; the
// frame's, which stands there; and those behind the mark's. There is room for them.
pub fn put_back(out: &mut [u8], bytes: &[u8], size: usize, frame: usize)
    requires before { field_size byte_length + size ≤ frame }
    requires all_there { frame + field_size frame_length + field_size byte_length ≤ length bytes.now }
    requires room { size + (length bytes.now - frame) ≤ length out.old + field_size byte_length }
    ensures { out.new
        ≡ sets out.old 0 (take size (drop (field_size byte_length) bytes.now)
        ++ take (field_size frame_length) (drop frame bytes.now)
        ++ drop (frame + field_size frame_length + field_size byte_length) bytes.now) }
{
    let rows = frame + FRAME_SIZE + BYTE_SIZE;
    copy_bytes(out, 0, bytes, BYTE_SIZE, size);
    copy_bytes(out, size, bytes, frame, FRAME_SIZE);
    copy_bytes(out, size + FRAME_SIZE, bytes, rows, bytes.len() - rows);
}
