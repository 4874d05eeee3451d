// Frames: opening a sweep, and clearing the lent lists.
ghost use Rattle.std.specs.Prelude.{◌≡◌, length, replicate};
ghost use Rattle.rules.specs.Floats.{zero_f};
ghost use Rattle.rules.specs.MarksAndFrames.{opened_frame, opened_stamps};

use types::Frame;

// The frame of the next sweep. Past the highest, frames start again at 1.
pub fn opened(frame: Frame) -> Frame
    ensures { result.0 ≡ opened_frame frame.0 }
{
    let n = frame.0;
    if n >= Frame::HIGHEST.0 {
        return Frame(1);
    }
    Frame(n + 1)
}

pub fn clear_stamps(stamps: &mut [u32])
    ensures { stamps.new ≡ replicate (length stamps.old) 0 }
{
    stamps.fill(0);
}

pub fn clear_odds(odds: &mut [f64])
    ensures { odds.new ≡ replicate (length odds.old) zero_f }
{
    odds.fill(0.0);
}

// Where frames start again, a stale stamp would pass for one of the new sweep, so all are cleared.
pub fn open_stamps(frame: Frame, stamps: &mut [u32])
    ensures { stamps.new ≡ opened_stamps frame.0 stamps.old }
{
    if frame.0 >= Frame::HIGHEST.0 {
        clear_stamps(stamps);
    }
}
