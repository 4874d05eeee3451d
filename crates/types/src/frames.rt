// Frames and stamps: both are u32 in the original, told apart by comment only. Here a frame is not a stamp.
ghost use Rattle.std.specs.Prelude.{◌≡◌, ◌≤◌};
ghost use Rattle.rules.specs.MarksAndFrames.{stamp_of, highest_frame};

// The number of a sweep. Any number may be handed over; what a sweep cannot have is refused with 9.
#[repr(C)]
#[derive(Clone, Copy)]
pub struct Frame(pub u32);

// What a cell bears: the frame of its last mark, and whether that mark was an occupied one.
#[derive(Clone, Copy)]
pub struct Stamp(u32);

impl Frame {
    // Stamps are twice a frame and one more, so this is the highest that fits.
    pub const HIGHEST: Frame = Frame(2_147_483_647);
}

impl Stamp {
    // The only way from a frame to a stamp. A higher frame's stamp would not fit; whoever marks has refused it with 9.
    pub fn of(frame: Frame, occupied: bool) -> Stamp
        requires { frame.0 ≤ highest_frame }
        ensures { result.0 ≡ stamp_of frame.0 occupied }
    {
        let n = frame.0;
        if occupied {
            Stamp(n * 2 + 1)
        } else {
            Stamp(n * 2)
        }
    }

    // A number of the lent stamps, which may hold anything at all, read as the stamp that it stands for.
    pub fn read(number: u32) -> Stamp
        ensures { result.0 ≡ number }
    {
        Stamp(number)
    }

    // The number that stands for it in the lent stamps.
    pub fn number(self) -> u32
        ensures { result ≡ self.0 }
    {
        self.0
    }
}
