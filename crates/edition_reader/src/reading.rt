// Reading a record of edition 2: the whole of it is tried, then the lent lists, and only then are they written.
ghost use Rattle.std.specs.Prelude.{◌≡◌, ◌+◌, ◌*◌, ◌≤◌, length, drop};
ghost use Rattle.rules.specs.Fields.{field_size, contents};
ghost use Rattle.rules.specs.EditionTwo.{byte_length, open_field, marks_running, row_size};
ghost use Rattle.rules.specs.RefusalNumbers.Editions.{read_edition_entry};
ghost use Rattle.grid_map.specs.Heads.{head_of, load_outcome};
ghost use Rattle.marks.specs.Marking.{grid_of};
ghost use Rattle.edition_reader.specs.Editions.{grid_here};

use crate::check::edition_check;
use crate::loads::Loads;
use crate::parts::is_open_at;
use fields::{BYTE_SIZE, FRAME_SIZE};
use grid_map::{GridMap, Loaded};
use marks::clear_stamps;
use open_rows::{bands_size, read_open_rows};
use record_reader::frame_field_at;
use rows::read_rows;
use types::Refusal;

// All rows into the lent lists, from the mark's field on; of a closed record the stamps are 0. The rows' fields stand
// whole, and the lists have a number for each cell.
fn read_grid(
    bytes: &[u8],
    at: usize,
    width: usize,
    count: usize,
    odds: &mut [f64],
    stamps: &mut [u32],
) -> bool
    requires whole { at + field_size byte_length
        + count * row_size (marks_running (contents open_field (drop at bytes.now))) width ≤ length bytes.now }
    requires each_odds { length odds.old ≡ width * count }
    requires each_stamp { length stamps.old ≡ width * count }
    ensures running { result ≡ marks_running (contents open_field (drop at bytes.now)) }
    ensures lists { grid_of odds.new stamps.new ≡ grid_here width count (drop at bytes.now) }
{
    let rows = at + BYTE_SIZE;
    if is_open_at(bytes, at) {
        read_open_rows(bytes, rows, width, count, odds, stamps);
        return true;
    }
    read_rows(bytes, rows, width, count, odds);
    clear_stamps(stamps);
    false
}

// A map from its record of edition 2, which has its pairs and cuts, and whether its sweep is open. A record of edition
// 1 is broken at its first field, one of another number of axes at its extents'.
pub fn read_edition2_record<E: Loads>(
    bytes: &[u8],
    odds: &mut [f64],
    stamps: &mut [u32],
) -> Result<Loaded<GridMap<E, E::Model>>, Refusal>
    ensures { load_outcome (head_of E.extents E.model_of) result odds.new stamps.new
        ≡ read_edition_entry E.AXES bytes.now (grid_of odds.old stamps.old) }
{
    edition_check::<E>(bytes)?;
    let extents = E::extents_field_at(bytes, BYTE_SIZE);
    let cells = extents.cells();
    if odds.len() != cells || stamps.len() != cells {
        return Err(Refusal::Buffer);
    }
    let width = extents.row_width();
    let count = extents.row_count();
    let bands = BYTE_SIZE + E::extents_size();
    let frame = bands + bands_size::<E>();
    let running = read_grid(bytes, frame + FRAME_SIZE, width, count, odds, stamps);
    Ok(Loaded {
        map: GridMap {
            extents,
            model: E::bands_at(bytes, bands),
            frame: frame_field_at(bytes, frame),
        },
        running,
    })
}
