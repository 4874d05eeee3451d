// A record of edition 2, field by field: what is answered when each byte is the first that is missing, or is changed,
// and when a field is exchanged with the next. A line for each field, on it how many damages in turn have the same
// answer.
ghost use Rattle.std.specs.Prelude.{◌<◌};

use crate::answers::{Answer, Reader};
use crate::record::{Field, ROOM, Record};
use std::io;

// What becomes of each byte of a field in turn.
#[derive(Clone, Copy)]
pub enum Damage {
    // The record is cut before it.
    Cut,
    // These of its bits are exchanged.
    Bits(u8),
}

fn damaged<E: Reader>(record: &Record, damage: Damage, at: usize) -> Answer
    requires { at < ROOM }
{
    match damage {
        Damage::Cut => E::answer(&record.bytes[..at]),
        Damage::Bits(mask) => E::answer(record.with_byte_changed(at, mask).whole()),
    }
}

fn damaged_field<E: Reader>(
    rt: &impl Print,
    record: &Record,
    damage: Damage,
    field: Field,
) -> io::Result<()> {
    let Field { from, to } = field;
    print!(rt; "  field at {from}:")?;
    let mut since = from;
    let mut answer = damaged::<E>(record, damage, from);
    for at in from + 1..to {
        let next = damaged::<E>(record, damage, at);
        if next != answer {
            print!(rt; " {} {answer},", at - since)?;
            since = at;
            answer = next;
        }
    }
    println!(rt; " {} {answer}", to - since)
}

pub fn every_field_damaged<E: Reader>(
    rt: &impl Print,
    record: &Record,
    damage: Damage,
) -> io::Result<()> {
    for field in record.fields() {
        damaged_field::<E>(rt, record, damage, field)?;
    }
    Ok(())
}

pub fn every_field_exchanged<E: Reader>(rt: &impl Print, record: &Record) -> io::Result<()> {
    for first in record.fields() {
        if let Some(second) = record.field_at(first.to) {
            let exchanged = record.with_fields_exchanged(first, second);
            let answer = E::answer(exchanged.whole());
            println!(rt; "  fields at {} and {}: {answer}", first.from, second.from)?;
        }
    }
    Ok(())
}
