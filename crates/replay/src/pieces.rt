// The list, read from the standard input piece by piece and replayed line by line. What is left of a piece after its
// last whole line stays, and the next piece is read behind it.
use crate::kinds::Kind;
use crate::list::List;
use crate::tally::Tally;
use std::io;
use std::io::Read;

// How many bytes of the list there is room for at a time.
const ROOM: usize = 65536;

// The most pieces that are read.
const PIECES: u64 = 1000;

// The whole list, at most a thousand pieces of it. A line that the list breaks off in, or that the room does not hold,
// is malformed.
pub fn replay(rt: &(impl Input + AllocGlobal)) -> io::Result<Tally> {
    let mut input = rt.reader();
    let mut piece = Vec::new(rt.alloc());
    let mut list = List::new();
    for _ in 0..PIECES {
        let room = ROOM.saturating_sub(piece.len()) as u64;
        let read = input.by_ref().take(room).read_to_end(&mut piece)?;
        if read == 0 && piece.is_empty() {
            return Ok(list.tally);
        }
        if read == 0 {
            break;
        }
        let whole = piece
            .iter()
            .rposition(|b| *b == b'\n')
            .map_or(0, |end| end + 1);
        for line in piece[..whole].split_inclusive(|b| *b == b'\n') {
            list.line(line.strip_suffix(b"\n").unwrap_or(line));
        }
        piece.drain(..whole);
    }
    list.tally.add(Kind::Malformed, false);
    Ok(list.tally)
}
