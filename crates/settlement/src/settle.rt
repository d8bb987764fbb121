// The public call: a case settled into rows.
ghost use Rattle.std.specs.Prelude.{◌≡◌, ◌*◌, ◌≤◌, length};
ghost use Rattle.binary.specs.Lists.{Holds};
ghost use Rattle.casefile.specs.Layout.{row_width};
ghost use Rattle.casefile.specs.Decode.{format_in, decode};
ghost use Rattle.casefile.specs.Lookup.{unit_of, bid_level};
ghost use Rattle.limits.specs.StageChecked.{AcceptedFile};
ghost use Rattle.case_rows.specs.StageRows.{rows_in, totals_in};
ghost use Rattle.settlement.specs.Settled.{settlement_of, answer_of, rows_after};

use calls::answers::Refusal;
use case_check::check::check_into;
use case_rows::rows::{Totals, settle_rows};
use casefile::case::Case;
use casefile::layout;
use conduct::flags::find_flags;

// Of a case that is settled: its rows, and both totals in cents.
#[derive(Clone, Copy, Debug, PartialEq, Eq)]
pub struct Settled {
    pub rows: usize,
    pub penalties: u64,
    pub make_ups: u64,
}

// The rows of an accepted file, from the places, r and c that its check found.
fn settle_accepted(
    file: &[u8],
    places: &[usize; layout::MOST_EVENTS],
    levels: &[u32; layout::MOST_EVENTS],
    corrects: &[u32; layout::MOST_EVENTS],
    rows: &mut [u8],
) -> Totals
    requires accepted_file { AcceptedFile file.now × Holds (decode file.now).events.count places.now (unit_of (decode file.now)) }
    requires levels_found { Holds (decode file.now).events.count levels.now (bid_level (decode file.now).references (decode file.now).events) }
    requires has_room { row_width (format_in file.now) * (decode file.now).events.count ≤ length rows.old }
    ensures value { result ≡ totals_in file.now levels.now corrects.now }
    ensures rows_after { rows.new ≡ rows_in file.now levels.now corrects.now rows.old }
{
    let mut groups = [0u16; layout::MOST_EVENTS];
    let mut leaders = [0usize; layout::MOST_EVENTS];
    let mut masks = [0u32; layout::MOST_EVENTS];
    find_flags(file, places, levels, &mut groups, &mut leaders, &mut masks);
    settle_rows(
        file, places, levels, corrects, &groups, &leaders, &masks, rows,
    )
}

// A case that meets every limit is settled, a row for each event; any other is refused, and the rows buffer is as it was.
pub fn settle<'a>(file: &'a [u8], correction: &'a [u8], rows: &mut [u8]) -> Result<Settled, Refusal>
    ensures value { result ≡ settlement_of (answer_of file.now correction.now (length rows.old)) }
    ensures rows_after { rows.new ≡ rows_after file.now correction.now rows.old }
{
    let mut places = [0usize; layout::MOST_EVENTS];
    let mut levels = [0u32; layout::MOST_EVENTS];
    let mut corrects = [0u32; layout::MOST_EVENTS];
    let checked = check_into(
        file,
        correction,
        rows.len(),
        &mut places,
        &mut levels,
        &mut corrects,
    );
    if let Err(refusal) = checked {
        return Err(Refusal {
            number: u8::from(refusal),
        });
    }
    let totals = settle_accepted(file, &places, &levels, &corrects, rows);
    Ok(Settled {
        rows: Case::of(file).event_count(),
        penalties: totals.penalties,
        make_ups: totals.make_ups,
    })
}
