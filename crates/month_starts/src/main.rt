// The first day of each month from January 2000 to December 2099, a line each: the months' lengths, added.
#![tactic(auto)]

use std::io;

mod months;

fn main(rt: HostRuntime) -> io::Result<()> {
    months::print_starts(&rt)
}
