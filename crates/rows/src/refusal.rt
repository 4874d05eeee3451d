// The refusal of a broken record.
ghost use Rattle.std.specs.Prelude.{◌≡◌};
ghost use Rattle.rules.specs.RefusalNumbers.{broken_record};
ghost use Rattle.types.specs.Refusals.{refusal_of};

use types::Refusal;

// 10, with the offset of the field that breaks the record.
pub fn record_broken(at: usize) -> Refusal
    ensures { refusal_of result ≡ broken_record at }
{
    Refusal::Record { offset: at as u64 }
}
