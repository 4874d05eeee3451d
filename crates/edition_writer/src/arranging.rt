// Edition 2's arrangement of a record's fields: how many bytes there are, whether they can be written, and the fields
// after the bands' one after another.
ghost use Rattle.std.specs.Prelude.{◌≡◌, ◌+◌, ◌*◌, ◌^◌, ◌≤◌, ◌<◌, length};
ghost use Rattle.std.proofs.lemmas.List.Edits.{sets};
ghost use Rattle.rules.specs.TheGridAndItsBounds.{most_extent};
ghost use Rattle.rules.specs.Fields.{field_size};
ghost use Rattle.rules.specs.MapRecord.{frame_length};
ghost use Rattle.rules.specs.EditionTwo.{byte_length, row_size, grid_bytes, grid_tried};
ghost use Rattle.checks.specs.Checking.{check_of};
ghost use Rattle.rows.specs.Rows.{refusal_in};
ghost use Rattle.types.specs.Answers.{count_answer};
ghost use Rattle.types.specs.Models.{model_of};
ghost use Rattle.marks.specs.Marking.{grid_of};
ghost use Rattle.edition_writer.specs.Writing.{size_of, writable_grid, rest_bytes, enough_stamps};

use crate::parts::put_mark;
use fields::{BYTE_SIZE, END_SIZE, FLOAT_SIZE, FRAME_SIZE, HEAD_SIZE, WORD_SIZE};
use open_rows::{open_rows_writable, write_open_rows};
use record_writer::{put_end, put_frame};
use rows::{rows_writable, write_rows};
use types::{Frame, Model, Refusal};

// A map's lists, row by row, with its frame and whether its sweep is open. An open one has a stamp for each cell; of a
// closed one no stamp is looked at.
#[derive(Clone, Copy)]
pub struct Rows<'a> {
    pub odds: &'a [f64],
    pub stamps: &'a [u32],
    pub width: usize,
    pub count: usize,
    pub frame: Frame,
    pub running: bool,
    ghost all_there: { count * width ≤ length odds.now },
    ghost marked: { enough_stamps running (count * width) (length stamps.now) },
    ghost short: { width ≤ most_extent },
}

impl Rows<'_> {
    // How many bytes a row has, with its stamps where the record is open.
    fn row_size(self) -> usize
        ensures { result ≡ row_size self.entry.running self.entry.width }
    {
        let odds = HEAD_SIZE + FLOAT_SIZE * self.width;
        if self.running {
            return odds + (HEAD_SIZE + WORD_SIZE * self.width);
        }
        odds
    }

    // All tried, those of stamps where the record is open. Their bytes can be counted.
    fn check(self, model: Model, at: usize) -> Result<(), Refusal>
        requires countable { at + self.count * row_size self.running self.width < 2 ^ 64 }
        ensures { check_of result
            ≡ refusal_in (grid_tried self.entry.running (model_of model) self.entry.frame.0
            self.entry.width self.entry.count at (grid_of self.entry.odds.now self.entry.stamps.now)) }
    {
        if self.running {
            return open_rows_writable(
                self.odds,
                self.stamps,
                self.width,
                self.count,
                model,
                self.frame,
                at,
            );
        }
        rows_writable(self.odds, self.width, self.count, model, at)
    }

    // The record's size, or why it cannot be written. The bytes can be counted.
    pub fn size_if_writable(self, model: Model, at: usize, room: usize) -> Result<u64, Refusal>
        requires countable { size_of self.running at self.width self.count < 2 ^ 64 }
        ensures { count_answer result
            ≡ writable_grid self.entry.running (model_of model) self.entry.frame.0
            self.entry.width self.entry.count at (grid_of self.entry.odds.now self.entry.stamps.now) room }
    {
        self.check(model, at)?;
        let size = at + self.count * self.row_size() + END_SIZE;
        if size <= room {
            return Ok(size as u64);
        }
        Err(Refusal::Room {
            needed: size as u64,
        })
    }

    // With their stamps where the record is open. There is room for them.
    fn put(self, out: &mut [u8], at: usize)
        requires room { at + self.count * row_size self.running self.width ≤ length out.old }
        ensures { out.new
            ≡ sets out.old at (grid_bytes self.entry.running self.entry.width self.entry.count
            (grid_of self.entry.odds.now self.entry.stamps.now)) }
    {
        if self.running {
            write_open_rows(out, at, self.odds, self.stamps, self.width, self.count);
        } else {
            write_rows(out, at, self.odds, self.width, self.count);
        }
    }

    // The fields after the bands'. There is room for all.
    pub fn put_rest(self, out: &mut [u8], at: usize)
        requires room { size_of self.running (at + field_size frame_length + field_size byte_length)
            self.width self.count ≤ length out.old }
        ensures { out.new
            ≡ sets out.old at (rest_bytes self.entry.running self.entry.frame.0 self.entry.width self.entry.count
            (grid_of self.entry.odds.now self.entry.stamps.now)) }
    {
        let mark = at + FRAME_SIZE;
        let rows = mark + BYTE_SIZE;
        let end = rows + self.count * self.row_size();
        put_frame(out, at, self.frame);
        put_mark(out, mark, self.running);
        self.put(out, rows);
        put_end(out, end);
    }
}
