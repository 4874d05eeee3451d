// Reading the map record of the requirements: a map's head and odds from bytes, into lent lists, for any number of
// axes.
#![tactic(auto)]

mod check;
mod parts;
mod reading;
mod reads;

pub use check::{record_check, rows_and_end};
pub use parts::{
    end_check, extents_sound, frame_field_at, frame_sound, model_field_at, model_sound,
};
pub use reading::read_record;
pub use reads::Reads;
