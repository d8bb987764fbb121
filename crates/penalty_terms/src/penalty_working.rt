// The public call: the working of an event's penalty.
ghost use Rattle.std.specs.Prelude.{◌≡◌, ◌≤◌, ◌<◌};
ghost use Rattle.binary.specs.Lists.{Holds};
ghost use Rattle.casefile.specs.Layout.{most_events};
ghost use Rattle.casefile.specs.Decode.{decode};
ghost use Rattle.casefile.specs.Lookup.{unit_of, bid_level};
ghost use Rattle.casefile.specs.Sections.{events_of};
ghost use Rattle.limits.specs.StageChecked.{AcceptedFile};
ghost use Rattle.sanctions.specs.StageGiven.{FoundMasks, Sound};
ghost use Rattle.sanctions.specs.StageTables.{sanction_of};
ghost use Rattle.penalty_terms.specs.PenaltyWorking.{penalty_working_at, refused_penalty, penalty_working_of};
ghost use Rattle.penalty_terms.specs.StageTerms.{fuel_in};

use crate::hour_terms::{added_of, hour_losses, hour_terms};
use binary::numbers::choose;
use case_check::check::check_into;
use casefile::case::Case;
use casefile::layout;
use conduct::flags::find_flags;
use sanctions::fuel::party_day;
use sanctions::penalties::sanction_at;
use sanctions::sanction::Sanction;
use tariff::sanction_rules::{LEAST_CHARGE, fuel_charge};

// The refusal's number, or 0 and the working, laid out for C; what the kind does not have is 0.
#[repr(C)]
#[derive(Drop)]
pub struct PenaltyWorking {
    pub number: u8,
    pub kind: u8,
    pub multiplier: u8,
    pub below: bool,
    pub n3: u16,
    pub n2: u16,
    pub row: usize,
    pub amount: u64,
    pub revenue: u64,
    pub e_positive: u64,
    pub e_negative: u64,
    pub t: u64,
    pub x: u64,
    pub penalty: u64,
    pub hours: [u64; layout::HOURS],
    pub losses: [u64; layout::HOURS],
}

// The terms of a party-day: E as its positive and negative part, T, X, and whether X is below $5,000.
#[derive(Drop)]
pub struct FuelTerms {
    pub e_positive: u64,
    pub e_negative: u64,
    pub t: u64,
    pub x: u64,
    pub below: bool,
}

// The sanction of a row, once the penalties of the rows before it are found.
fn row_sanction(
    file: &[u8],
    groups: &[u16; layout::MOST_EVENTS],
    leaders: &[usize; layout::MOST_EVENTS],
    masks: &[u32; layout::MOST_EVENTS],
    row: usize,
) -> Sanction
    requires accepted_file { AcceptedFile file.now × (row < (decode file.now).events.count) }
    requires found_masks { FoundMasks (decode file.now) (decode file.now).events.count groups.now leaders.now masks.now }
    ensures { result ≡ sanction_of (decode file.now) row }
{
    let case = Case::of(file);
    let mut penalties = [0u64; layout::MOST_EVENTS];
    for i in 0..row {
        let sanction = sanction_at(case, groups, leaders, masks, &penalties, i);
        penalties[i] = sanction.penalty;
    }
    sanction_at(case, groups, leaders, masks, &penalties, row)
}

// The terms of the party-day that the row's event leads, under M.
fn fuel_terms(
    case: Case,
    leaders: &[usize; layout::MOST_EVENTS],
    masks: &[u32; layout::MOST_EVENTS],
    kind: u8,
    m: u8,
    row: usize,
) -> FuelTerms
    requires in_range { (row < (events_of case).count) × ((events_of case).count ≤ most_events) × Sound case.format case.events.now leaders.now }
    requires of_fuel { kind ≡ 3 → ((events_of case).kind row ≡ 3) × (m ≤ 3) }
    ensures { result ≡ fuel_in case.entry.format case.entry.events.now leaders.now masks.now kind m row }
{
    if kind != 3 {
        return FuelTerms {
            e_positive: 0,
            e_negative: 0,
            t: 0,
            x: 0,
            below: false,
        };
    }
    let day = party_day(case, leaders, masks[row], row);
    let gain = day.gain;
    let loss = day.loss;
    let t = day.rise.saturating_sub(day.fall);
    let x = fuel_charge(m, gain, loss, t);
    FuelTerms {
        e_positive: gain.saturating_sub(loss),
        e_negative: loss.saturating_sub(gain),
        t,
        x,
        below: x < LEAST_CHARGE,
    }
}

// The working of event i of an accepted case, from the tables of its flags; fuel's penalty stands on its leader's row.
fn working_of(
    file: &[u8],
    groups: &[u16; layout::MOST_EVENTS],
    leaders: &[usize; layout::MOST_EVENTS],
    masks: &[u32; layout::MOST_EVENTS],
    i: usize,
) -> PenaltyWorking
    requires accepted_file { AcceptedFile file.now × (i < (decode file.now).events.count) }
    requires found_masks { FoundMasks (decode file.now) (decode file.now).events.count groups.now leaders.now masks.now }
    ensures { result ≡ penalty_working_at (decode file.now) i }
{
    let case = Case::of(file);
    let event = case.event_at(i);
    let kind = event.kind;
    let row = choose(kind == 3, leaders[i], i);
    let sanction = row_sanction(file, groups, leaders, masks, row);
    let multiplier = sanction.multiplier;
    let fuel = fuel_terms(case, leaders, masks, kind, multiplier, row);
    let cells = case.event_cells(i);
    let mask = masks[i];
    let hours = hour_terms(kind, cells, mask);
    PenaltyWorking {
        number: 0,
        kind,
        multiplier,
        below: fuel.below,
        n3: sanction.n3,
        n2: sanction.n2,
        row,
        amount: added_of(1, kind, hours),
        revenue: added_of(2, kind, hours),
        e_positive: fuel.e_positive,
        e_negative: fuel.e_negative,
        t: fuel.t,
        x: fuel.x,
        penalty: sanction.penalty,
        hours,
        losses: hour_losses(kind, cells, mask),
    }
}

fn working_at(
    file: &[u8],
    places: &[usize; layout::MOST_EVENTS],
    levels: &[u32; layout::MOST_EVENTS],
    i: usize,
) -> PenaltyWorking
    requires accepted_file { AcceptedFile file.now × (i < (decode file.now).events.count) }
    requires places_found { Holds (decode file.now).events.count places.now (unit_of (decode file.now)) }
    requires levels_found { Holds (decode file.now).events.count levels.now (bid_level (decode file.now).references (decode file.now).events) }
    ensures { result ≡ penalty_working_at (decode file.now) i }
{
    let mut groups = [0u16; layout::MOST_EVENTS];
    let mut leaders = [0usize; layout::MOST_EVENTS];
    let mut masks = [0u32; layout::MOST_EVENTS];
    find_flags(file, places, levels, &mut groups, &mut leaders, &mut masks);
    working_of(file, &groups, &leaders, &masks, i)
}

fn refused_penalty(number: u8) -> PenaltyWorking
    ensures { result ≡ refused_penalty number }
{
    PenaltyWorking {
        number,
        kind: 0,
        multiplier: 0,
        below: false,
        n3: 0,
        n2: 0,
        row: 0,
        amount: 0,
        revenue: 0,
        e_positive: 0,
        e_negative: 0,
        t: 0,
        x: 0,
        penalty: 0,
        hours: [0; layout::HOURS],
        losses: [0; layout::HOURS],
    }
}

// The working of an event's penalty; a refused case has its number, and 10 where there is no such event.
pub fn penalty_working<'a>(file: &'a [u8], correction: &'a [u8], event: usize) -> PenaltyWorking
    ensures { result ≡ penalty_working_of file.now correction.now event }
{
    let mut places = [0usize; layout::MOST_EVENTS];
    let mut levels = [0u32; layout::MOST_EVENTS];
    let mut corrects = [0u32; layout::MOST_EVENTS];
    let checked = check_into(
        file,
        correction,
        layout::MOST_ROWS,
        &mut places,
        &mut levels,
        &mut corrects,
    );
    if let Err(refusal) = checked {
        return refused_penalty(u8::from(refusal));
    }
    let case = Case::of(file);
    if event < case.event_count() {
        return working_at(file, &places, &levels, event);
    }
    refused_penalty(10)
}
