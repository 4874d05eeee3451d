// The record of a map of 2 by 2, byte for byte.
use crate::map_of;
use crate::shown::Refused;
use record_writer::write_record;
use std::io;
use types::Extents2;

// A field begins at these bytes of the record of 2 by 2, and a new line with it.
fn field_begins(at: usize) -> bool {
    matches!(at, 0 | 7 | 34 | 41 | 60 | 79)
}

fn all_bytes(rt: &impl Print, bytes: &[u8]) -> io::Result<()> {
    for (at, byte) in bytes.iter().enumerate() {
        let gap = if field_begins(at) { "\n  " } else { " " };
        print!(rt; "{gap}{byte:02x}")?;
    }
    Ok(())
}

pub(crate) fn record(rt: &impl Print) -> io::Result<()> {
    let map = map_of(Extents2 { x: 2, y: 2 }, 1);
    let mut bytes = [0u8; 82];
    print!(rt; "The record of 2 by 2, odds 0, 1, 2, 3, frame 1, a field to a line [82 bytes]: ")?;
    match write_record(map, &[0.0, 1.0, 2.0, 3.0], &mut bytes) {
        Ok(size) => {
            print!(rt; "{size}")?;
            all_bytes(rt, &bytes)?;
        }
        Err(r) => print!(rt; "{}", Refused(r))?,
    }
    println!(rt; "")
}
