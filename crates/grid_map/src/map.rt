// A map: its head, what stands beside the lent odds and stamps, and every entry that needs no beam, for any number of
// axes. The original's GridMap, without the boxes. Each entry checks the head as far as it uses it, answers for every
// input, and writes nothing where it refuses.
ghost use Rattle.std.specs.Prelude.{◌≡◌};
ghost use Rattle.std.specs.Float.{binary64};
ghost use Rattle.rules.specs.RefusalNumbers.Entries.{head_refusal, new_entry, reset_entry, begin_scan_entry};
ghost use Rattle.rules.specs.RefusalNumbers.Entries.{cell_containing_entry, log_odds_at_entry, sample_log_odds_entry, set_log_odds_entry, set_log_odds_checked_entry};
ghost use Rattle.types.specs.Answers.{answer_of, found_of, odds_answer};
ghost use Rattle.checks.specs.Checking.{check_of, uses_of};
ghost use Rattle.grid_map.specs.Heads.{head_of, map_outcome, open_outcome, set_outcome};
ghost use Rattle.marks.specs.Marking.{grid_of};

use checks::{Checked, Uses, head_check};
use marks::{
    Stepped, clear_odds, clear_stamps, open_stamps, opened, read_at, set_checked_at,
    set_log_odds_at,
};
use places::Places;
use sample::Samples;
use types::{Bands, Extents2, Extents3, Frame, Model, Refusal};

#[derive(Clone, Copy)]
pub struct GridMap<E, M> {
    pub extents: E,
    pub model: M,
    pub frame: Frame,
}

pub type GridMap2 = GridMap<Extents2, Model>;

pub type GridMap3 = GridMap<Extents3, Bands>;

// What extents of any number of axes are to a map.
pub trait Grid: Checked + Stepped + Places + Samples {}

impl Grid for Extents2 {}

impl Grid for Extents3 {}

impl<E: Grid> GridMap<E, E::Model> {
    // The checks of an entry that uses this much of the head and of the lists lent beside it.
    pub fn check(self, uses: Uses, odds: usize, stamps: usize) -> Result<(), Refusal>
        ensures { check_of result ≡ head_refusal (uses_of uses) (head_of E.extents E.model_of self) odds stamps }
    {
        head_check(uses, self.extents, self.model, self.frame, odds, stamps)
    }

    // A fresh map of these extents and this model: odds +0.0, stamps 0, frame 1.
    pub fn new(
        extents: E,
        model: E::Model,
        odds: &mut [f64],
        stamps: &mut [u32],
    ) -> Result<Self, Refusal>
        ensures { map_outcome (head_of E.extents E.model_of) result odds.new stamps.new
            ≡ new_entry (E.extents extents) (E.model_of extents model) (grid_of odds.old stamps.old) }
    {
        let frame = Frame(1);
        let fresh = GridMap {
            extents,
            model,
            frame,
        };
        fresh.check(Uses::NEW, odds.len(), stamps.len())?;
        clear_odds(odds);
        clear_stamps(stamps);
        Ok(fresh)
    }

    // Every cell back to unknown, with the extents and the model kept.
    pub fn reset(self, odds: &mut [f64], stamps: &mut [u32]) -> Result<Self, Refusal>
        ensures { map_outcome (head_of E.extents E.model_of) result odds.new stamps.new
            ≡ reset_entry (head_of E.extents E.model_of self) (grid_of odds.old stamps.old) }
    {
        self.check(Uses::RESET, odds.len(), stamps.len())?;
        clear_odds(odds);
        clear_stamps(stamps);
        Ok(GridMap {
            frame: Frame(1),
            ..self
        })
    }

    // Opens a sweep: the map with the next frame. A cell takes at most one update of each kind in it, however many
    // beams cross it.
    pub fn begin_scan(self, stamps: &mut [u32]) -> Result<Self, Refusal>
        ensures { open_outcome (head_of E.extents E.model_of) result stamps.new
            ≡ begin_scan_entry (head_of E.extents E.model_of self) stamps.old }
    {
        self.check(Uses::BEGIN_SCAN, 0, stamps.len())?;
        open_stamps(self.frame, stamps);
        Ok(GridMap {
            frame: opened(self.frame),
            ..self
        })
    }

    // The cell that contains a point.
    pub fn cell_containing(self, point: E::Point) -> Result<E::Cell, Refusal>
        ensures { answer_of E.cell result
            ≡ cell_containing_entry binary64 (head_of E.extents E.model_of self) (E.point point) }
    {
        self.check(Uses::CELL_CONTAINING, 0, 0)?;
        self.extents.cell_containing(point)
    }

    // The log-odds of one cell, or nothing off the grid.
    pub fn log_odds_at(self, odds: &[f64], cell: E::Cell) -> Result<Option<f64>, Refusal>
        ensures { odds_answer result
            ≡ log_odds_at_entry (head_of E.extents E.model_of self) (E.cell cell) odds.now }
    {
        self.check(Uses::CELL_READS, odds.len(), 0)?;
        Ok(read_at(odds, self.extents.translate_to_index(cell)))
    }

    // The interpolated log-odds at a point with their gradient, or nothing off the stencils' domain.
    pub fn sample_log_odds(
        self,
        odds: &[f64],
        point: E::Point,
    ) -> Result<Option<E::Sample>, Refusal>
        ensures { answer_of (found_of E.sample_of) result
            ≡ sample_log_odds_entry binary64 (head_of E.extents E.model_of self) (E.point point) odds.now }
    {
        self.check(Uses::SAMPLES, odds.len(), 0)?;
        Ok(self.extents.sample_log_odds(odds, point))
    }

    // Overwrites a cell's log-odds, clamped, bypassing the model's steps and the stamps.
    pub fn set_log_odds(self, odds: &mut [f64], cell: E::Cell, value: f64) -> Result<(), Refusal>
        ensures { set_outcome result odds.new
            ≡ set_log_odds_entry (head_of E.extents E.model_of self) (E.cell cell) value odds.old }
    {
        self.check(Uses::SET_LOG_ODDS, odds.len(), 0)?;
        let at = self.extents.translate_to_index(cell)?;
        set_log_odds_at(odds, at, self.extents.ceiling(self.model), value);
        Ok(())
    }

    // The same for a number: NaN is refused, after a cell off the grid.
    pub fn set_log_odds_checked(
        self,
        odds: &mut [f64],
        cell: E::Cell,
        value: f64,
    ) -> Result<(), Refusal>
        ensures { set_outcome result odds.new
            ≡ set_log_odds_checked_entry (head_of E.extents E.model_of self) (E.cell cell) value odds.old }
    {
        let lent = odds.len();
        self.check(Uses::SET_LOG_ODDS, lent, 0)?;
        let place = self.extents.translate_to_index(cell);
        set_checked_at(odds, place, self.extents.ceiling(self.model), value)
    }
}
