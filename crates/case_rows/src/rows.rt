// The rows buffer: row i begins at 128 times i, and the row writer sees only that row.
ghost use Rattle.std.specs.Prelude.{true, ◌≡◌, ◌+◌, ◌*◌, ◌≤◌, ◌<◌, length, get_or};
ghost use Rattle.std.proofs.lemmas.List.Edits.{sets};
ghost use Rattle.casefile.specs.Layout.{row_width, bids_offset, most_hours, most_events};
ghost use Rattle.casefile.specs.Decode.{format_in, decode};
ghost use Rattle.casefile.specs.Sections.{units_of, events_of};
ghost use Rattle.limits.specs.Refusal.{events_fine};
ghost use Rattle.limits.specs.StageChecked.{AcceptedFile};
ghost use Rattle.default_bids.specs.StageFigures.{highest_make_up};
ghost use Rattle.case_rows.specs.StageRow.{words_of, written_row, table_row};
ghost use Rattle.case_rows.specs.StageRows.{FoundFlags, rows_in, totals_in};

use binary::bytes::store;
use casefile::case::Case;
use casefile::layout;
use default_bids::bids::bids_in_force;
use default_bids::make_up::event_make_up;
use default_bids::mitigated::mitigated_mask;
use sanctions::penalties::sanction_at;
use sanctions::sanction::Sanction;

#[derive(Drop)]
pub struct Row {
    pub flags: u32,
    pub mitigated: u32,
    pub penalty: u64,
    pub make_up: u64,
    pub multiplier: u8,
    pub n3: u16,
    pub n2: u16,
    pub bids: [u32; layout::HOURS],
}

// The bids in force.
fn write_bids(row: &mut [u8], bids: [u32; layout::HOURS])
    requires { length row.old ≡ bids_offset + 4 * most_hours }
    ensures { row.new ≡ sets row.old bids_offset (words_of bids) }
{
    for h in 0..layout::HOURS {
        store::<u32>(row, layout::BIDS_OFFSET + 4 * h, bids[h]);
    }
}

// All the bytes of one row.
fn write_row(row: &mut [u8], r: Row)
    requires { length row.old ≡ bids_offset + 4 * most_hours }
    ensures { row.new ≡ written_row r }
{
    store::<u32>(row, 0, r.flags);
    store::<u32>(row, 4, r.mitigated);
    store::<u64>(row, 8, r.penalty);
    store::<u64>(row, 16, r.make_up);
    store::<u8>(row, 24, r.multiplier);
    store::<u8>(row, 25, 0);
    store::<u16>(row, 26, r.n3);
    store::<u16>(row, 28, r.n2);
    store::<u16>(row, 30, 0);
    let bids = r.bids;
    write_bids(row, bids);
}

// The row of event i, with its sanction, from the tables of its unit's place, r, c and its flag mask.
fn row_of(
    case: Case,
    places: &[usize; layout::MOST_EVENTS],
    levels: &[u32; layout::MOST_EVENTS],
    corrects: &[u32; layout::MOST_EVENTS],
    masks: &[u32; layout::MOST_EVENTS],
    sanction: Sanction,
    i: usize,
) -> Row
    requires in_range { (i < (events_of case).count) × (i < most_events) × (events_fine case.format case.events.now ≡ true) }
    requires place_in_range { get_or places.now i 0 < (units_of case).count }
    ensures value { result ≡ table_row case.entry.format case.entry.units.now case.entry.events.now places.now levels.now corrects.now masks.now sanction i }
    ensures make_up_in_range { result.make_up ≤ highest_make_up }
{
    let level = levels[i];
    let correct = corrects[i];
    let flags = masks[i];
    let mitigated = mitigated_mask(case, i, flags);
    let bids = bids_in_force(case, places[i], level, correct, mitigated, i);
    let make_up = event_make_up(case, i, level, correct, mitigated);
    Row {
        flags,
        mitigated,
        penalty: sanction.penalty,
        make_up,
        multiplier: sanction.multiplier,
        n3: sanction.n3,
        n2: sanction.n2,
        bids,
    }
}

#[derive(Clone, Copy)]
pub struct Totals {
    pub penalties: u64,
    pub make_ups: u64,
}

// Every row in file order, so that each finds the penalties before it; the bytes beyond the last row stay.
pub fn settle_rows(
    file: &[u8],
    places: &[usize; layout::MOST_EVENTS],
    levels: &[u32; layout::MOST_EVENTS],
    corrects: &[u32; layout::MOST_EVENTS],
    groups: &[u16; layout::MOST_EVENTS],
    leaders: &[usize; layout::MOST_EVENTS],
    masks: &[u32; layout::MOST_EVENTS],
    rows: &mut [u8],
) -> Totals
    requires accepted_file { AcceptedFile file.now × FoundFlags file.now places.now groups.now leaders.now masks.now }
    requires has_room { row_width (format_in file.now) * (decode file.now).events.count ≤ length rows.old }
    ensures value { result ≡ totals_in file.now levels.now corrects.now }
    ensures rows_after { rows.new ≡ rows_in file.now levels.now corrects.now rows.old }
{
    let case = Case::of(file);
    let n = case.event_count();
    let mut penalties = [0u64; layout::MOST_EVENTS];
    let mut total: u64 = 0;
    let mut due: u64 = 0;
    for i in 0..n {
        let sanction = sanction_at(case, groups, leaders, masks, &penalties, i);
        let row = row_of(case, places, levels, corrects, masks, sanction, i);
        penalties[i] = row.penalty;
        total += row.penalty;
        due += row.make_up;
        let at = layout::ROW_WIDTH * i;
        let end = at + layout::ROW_WIDTH;
        write_row(&mut rows[at..end], row);
    }
    Totals {
        penalties: total,
        make_ups: due,
    }
}
