// The C face: every entry of the library, as a function with the prefix `tembuzar_`, and nothing but conversions.
// `include/tembuzar.h` declares them and says what a caller owes: lists that are there, as long as said, a lent head
// that is there, and that do not overlap. Everything else is answered.
#![tactic(auto)]

mod edition2;
mod lent2;
mod lent3;
mod lines;
mod map2;
mod map3;
mod moves;
mod record;
mod sweep2;
mod sweep3;
mod sweep_file;
mod vertical_beam;
