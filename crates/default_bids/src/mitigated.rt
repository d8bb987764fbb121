// Mitigated hours.
ghost use Rattle.std.specs.Prelude.{◌≡◌, ◌<◌};
ghost use Rattle.casefile.specs.Sections.{events_of};
ghost use Rattle.default_bids.specs.StageFigures.{mitigated_by};

use casefile::case::Case;
use tariff::default_bid_rules::span_mask;

// The mitigated hours of event i, whose flag mask is given; bids alone have some, and a span where an hour is hit.
pub fn mitigated_mask(case: Case, i: usize, flags: u32) -> u32
    requires { i < (events_of case).count }
    ensures { result ≡ mitigated_by (events_of case.entry) i flags }
{
    let event = case.event_at(i);
    let kind = event.kind;
    if kind != 4 {
        return 0;
    }
    let market = event.market;
    let component = event.component;
    let hits = flags & event.q;
    if (component == 1) & (market == 0) & (hits != 0) {
        let run = event.r;
        return span_mask(hits, run, event.hours);
    }
    hits
}
