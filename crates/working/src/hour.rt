// The public call: the working of one hour of one event of a case.
ghost use Rattle.std.specs.Prelude.{◌≡◌, ◌≤◌, ◌<◌};
ghost use Rattle.binary.specs.Lists.{Holds};
ghost use Rattle.tariff.specs.StageSums.{highest_sum};
ghost use Rattle.casefile.specs.Layout.{most_hours};
ghost use Rattle.casefile.specs.Decode.{decode};
ghost use Rattle.casefile.specs.Lookup.{unit_of, bid_level};
ghost use Rattle.limits.specs.StageChecked.{AcceptedFile};
ghost use Rattle.party_runs.specs.StageParties.{leader_of};
ghost use Rattle.working.specs.Working.{sums_of, figures_with, comparisons_for, decrease, working_from, working_at, refused_working, working_of};

use crate::figures::{Counts, Figures, Sums, Working};
use binary::masks::bit_of;
use binary::numbers::choose;
use binary::words::Word;
use case_check::check::check_into;
use casefile::case::Case;
use casefile::cells::cell_at;
use casefile::layout;
use conduct::flags::find_flags;
use conduct::sums::{listed_capability, party_sums};
use conduct::time::time_totals;
use instance_counts::instances::instances_at;
use party_runs::parties::run_end;
use tariff::comparisons::{
    Comparisons, bid_comparisons, dispatch_comparisons, fuel_comparisons, no_comparisons,
    withheld_comparisons,
};
use tariff::conduct_tests::increase;

// What the party-day of event i adds to in hour h.
fn party_figures(
    file: &[u8],
    places: &[usize; layout::MOST_EVENTS],
    leaders: &[usize; layout::MOST_EVENTS],
    i: usize,
    h: usize,
) -> Sums
    requires accepted_file { AcceptedFile file.now × (i < (decode file.now).events.count) × (h < most_hours) }
    requires places_found { Holds (decode file.now).events.count places.now (unit_of (decode file.now)) }
    requires leaders_found { Holds (decode file.now).events.count leaders.now (leader_of (decode file.now)) }
    ensures value { result ≡ sums_of (decode file.now) i h }
    ensures sum_in_range { result.s ≤ highest_sum }
{
    let case = Case::of(file);
    let event = case.event_at(i);
    let kind = event.kind;
    let leader = leaders[i];
    let end = run_end(case, leader);
    let sums = party_sums(case, leaders, leader, end);
    let sum = sums[h];
    Sums {
        s: choose((kind == 1) | (kind == 2), sum, 0),
        g: listed_capability(case, places[i], i),
        fuel_events: choose(kind == 3, sum, 0),
    }
}

// The figures of hour h of event i, whose unit stands at that place.
fn figures_at(
    file: &[u8],
    place: usize,
    reference: u32,
    sums: Sums,
    total: u64,
    i: usize,
    h: usize,
) -> Figures
    requires accepted_file { AcceptedFile file.now × (i < (decode file.now).events.count) × (h < most_hours) }
    requires place_found { place ≡ unit_of (decode file.now) i }
    ensures { result ≡ figures_with (decode file.now) i h reference sums total }
{
    let case = Case::of(file);
    let event = case.event_at(i);
    let p = event.p;
    let unit = case.unit_at(place);
    let area = unit.area;
    let set = bit_of(p, h);
    let cell = cell_at(case.event_cells(i), h);
    Figures {
        kind: event.kind,
        component: event.component,
        market: event.market,
        tight: (area == 1) & set,
        a: cell.a,
        reference,
        capability: unit.capability,
        rate: unit.rate,
        average_price: unit.average_price,
        constrained_hours: unit.constrained_hours,
        s: sums.s,
        g: sums.g,
        fuel_events: sums.fuel_events,
        total,
    }
}

// The comparisons of the hour's test, by its kind.
fn comparisons_for(f: Figures) -> Comparisons
    requires { f.s ≤ highest_sum }
    ensures { result ≡ comparisons_for f }
{
    let kind = f.kind;
    if kind == 1 {
        return withheld_comparisons(f.a, f.capability, f.s, f.g, f.tight);
    }
    if kind == 2 {
        return dispatch_comparisons(f.a, f.rate, f.s, f.tight);
    }
    if kind == 3 {
        return fuel_comparisons(f.fuel_events);
    }
    if kind == 4 {
        return bid_comparisons(
            f.component,
            f.reference,
            f.a,
            f.market,
            f.tight,
            f.average_price,
            f.constrained_hours,
            f.total,
        );
    }
    no_comparisons()
}

// r - a, or 0 if negative.
fn decrease(reference: u32, bid: u32) -> u64
    ensures { result ≡ decrease reference bid }
{
    let below = bid.negative_part();
    let a = bid.positive_part();
    ((reference as u64) + (below as u64)).saturating_sub(a as u64)
}

fn working_from(f: Figures, flagged: bool, counts: Counts) -> Working
    requires { f.s ≤ highest_sum }
    ensures { result ≡ working_from f flagged counts }
{
    let comparisons = comparisons_for(f);
    let bid = f.kind == 4;
    let up = increase(f.reference, f.a);
    let down = decrease(f.reference, f.a);
    let left = comparisons.left;
    let right = comparisons.right;
    Working {
        number: 0,
        flagged,
        tight: f.tight,
        failed: comparisons.failed,
        taken: comparisons.taken,
        a: f.a,
        reference: f.reference,
        increase: choose(bid, up, 0),
        decrease: choose(bid, down, 0),
        s: f.s,
        g: f.g,
        total: f.total,
        n3: counts.n3,
        n2: counts.n2,
        left,
        right,
    }
}

fn refused_working(number: u8) -> Working
    ensures { result ≡ refused_working number }
{
    Working {
        number,
        flagged: false,
        tight: false,
        failed: 0,
        taken: 0,
        a: 0,
        reference: 0,
        increase: 0,
        decrease: 0,
        s: 0,
        g: 0,
        total: 0,
        n3: 0,
        n2: 0,
        left: [0; 4],
        right: [0; 4],
    }
}

// The working of an accepted case, from the places and levels that the check found.
fn working_at(
    file: &[u8],
    places: &[usize; layout::MOST_EVENTS],
    levels: &[u32; layout::MOST_EVENTS],
    i: usize,
    h: usize,
) -> Working
    requires accepted_file { AcceptedFile file.now × (i < (decode file.now).events.count) × (h < most_hours) }
    requires places_found { Holds (decode file.now).events.count places.now (unit_of (decode file.now)) }
    requires levels_found { Holds (decode file.now).events.count levels.now (bid_level (decode file.now).references (decode file.now).events) }
    ensures { result ≡ working_at (decode file.now) i h }
{
    let mut groups = [0u16; layout::MOST_EVENTS];
    let mut leaders = [0usize; layout::MOST_EVENTS];
    let mut masks = [0u32; layout::MOST_EVENTS];
    find_flags(file, places, levels, &mut groups, &mut leaders, &mut masks);
    let case = Case::of(file);
    let flagged = bit_of(masks[i], h);
    let instances = instances_at(case, &groups, &masks, i);
    let sums = party_figures(file, places, &leaders, i, h);
    let totals = time_totals(case, levels, i);
    let figures = figures_at(file, places[i], levels[i], sums, totals[h], i, h);
    let counts = Counts {
        n3: instances.n3,
        n2: instances.n2,
    };
    working_from(figures, flagged, counts)
}

// The working of an hour of an event; a refused case has its number, and 10 where there is no such event or hour.
pub fn working<'a>(file: &'a [u8], correction: &'a [u8], event: usize, hour: usize) -> Working
    ensures { result ≡ working_of file.now correction.now event hour }
{
    let mut places = [0usize; layout::MOST_EVENTS];
    let mut levels = [0u32; layout::MOST_EVENTS];
    let mut corrects = [0u32; layout::MOST_EVENTS];
    let checked = check_into(
        file,
        correction,
        layout::MOST_ROWS,
        &mut places,
        &mut levels,
        &mut corrects,
    );
    if let Err(refusal) = checked {
        return refused_working(u8::from(refusal));
    }
    let case = Case::of(file);
    if (event < case.event_count()) & (hour < layout::HOURS) {
        return working_at(file, &places, &levels, event, hour);
    }
    refused_working(10)
}
