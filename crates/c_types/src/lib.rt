// What C sees: a struct of plain numbers for each answer, where the library's own answers are enums that cannot cross,
// a map's head, which is generic there, and the conversions, as `From`. Nothing is decided here. The points, cells,
// beams, models and lines of the crates below cross as they are.
#![tactic(auto)]

mod answers;
mod answers2;
mod answers3;
mod heads;
mod lines;
mod refusals;

pub use answers::{CCountAnswer, CMarkAnswer, CMoveAnswer, COddsAnswer, CSweepAnswer};
pub use answers2::{CCellAnswer2, CLoadAnswer2, CMapAnswer2, CSampleAnswer2};
pub use answers3::{CCellAnswer3, CLoadAnswer3, CMapAnswer3, CSampleAnswer3};
pub use heads::{CMap2, CMap3};
pub use lines::{CLineAnswer2, CLineAnswer3, CStep2, CStep3, step2_to_c, step3_to_c};
pub use refusals::CRefusal;
