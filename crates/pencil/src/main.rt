// The pencil sheet (docs/RULES.md, C18), run on the small public calls: each line with its answer.
#![tactic(auto)]

use std::io;

mod conduct_lines;
mod default_bid_lines;
mod refused_lines;
mod sanction_lines;

fn main(rt: HostRuntime) -> io::Result<()> {
    conduct_lines::withheld(&rt)?;
    conduct_lines::bids(&rt)?;
    conduct_lines::times(&rt)?;
    sanction_lines::penalties(&rt)?;
    sanction_lines::windows(&rt)?;
    default_bid_lines::spans(&rt)?;
    default_bid_lines::in_force(&rt)?;
    refused_lines::reference_refusals(&rt)?;
    refused_lines::bid_refusals(&rt)?;
    refused_lines::withheld_refusals(&rt)?;
    refused_lines::sanction_refusals(&rt)?;
    refused_lines::fuel_refusals(&rt)?;
    refused_lines::default_bid_refusals(&rt)
}
