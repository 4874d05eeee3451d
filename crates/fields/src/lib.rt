// The house's fields: numbers, floats and the heads of fields at a place in lent bytes, read and written,
// little-endian; and the layout of the map record and of the sweep file. What they hold stands in the crates that read
// and write them.
#![tactic(auto)]

mod layout;
mod patterns;
mod reading;
mod writing;

pub use layout::{
    AXES_LENGTH, AXES_SIZE, AXES_TAG, BANDS_SIZE, BEAM_SIZE2, BEAM_SIZE3, BEAM_TAG, BEAMS_AT,
    BYTE_LENGTH, BYTE_SIZE, COUNT_LENGTH, COUNT_SIZE, COUNT_TAG, CUTS_LENGTH, CUTS_SIZE, CUTS_TAG,
    EDITION_TAG, EDITION_TWO, END_LENGTH, END_SIZE, END_TAG, EXTENTS_LENGTH2, EXTENTS_LENGTH3,
    EXTENTS_SIZE2, EXTENTS_SIZE3, EXTENTS_TAG, FLOAT_SIZE, FRAME_AT2, FRAME_AT3, FRAME_LENGTH,
    FRAME_SIZE, FRAME_TAG, HEAD_AND_HIT, HEAD_SIZE, HIT_LENGTH, MODEL_AT2, MODEL_AT3, MODEL_LENGTH,
    MODEL_SIZE, MODEL_TAG, MOST_BEAMS, OPEN_TAG, POINTS_LENGTH, ROW_TAG, ROWS_AT2, ROWS_AT3,
    SHORT_SIZE, STAMPS_TAG, STATION_AT, STATION_LENGTH, STATION_NUMBER_AT, STATION_SIZE,
    STATION_TAG, WORD_SIZE,
};
pub use patterns::bits_of;
pub use reading::{f64_at, field_here, u16_at, u32_at, u64_at};
pub use writing::{put_f64, put_field, put_floats, put_u16, put_u32, put_words};
