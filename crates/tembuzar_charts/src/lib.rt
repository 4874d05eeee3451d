// Charts from C: the layer chart of a map, and the season's report of many charts. It is a library of its own and needs
// nothing of the others.
#![tactic(auto)]

mod layers;
mod seasons;

pub use layers::{tembuzar_layer_chart2, tembuzar_layer_chart3};
pub use seasons::{
    tembuzar_add_chart, tembuzar_add_charts, tembuzar_join_reports, tembuzar_start_report,
};
