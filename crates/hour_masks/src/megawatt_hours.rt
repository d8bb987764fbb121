// The hours of withheld and of dispatch events that fail: over the unit's line, or over the line of the group's sum.
ghost use Rattle.std.specs.Prelude.{◌≡◌, min};
ghost use Rattle.binary.specs.Bounded.{mask_to};
ghost use Rattle.tariff.specs.ConductTests.{unit_limit};
ghost use Rattle.casefile.specs.Layout.{most_hours};
ghost use Rattle.hour_masks.specs.StageHours.{either_over, over_shares, withheld_hour, dispatch_hour};

use crate::columns::{hours_over, sums_over};
use casefile::layout;
use tariff::conduct_tests;
use tariff::conduct_tests::{group_limit, unit_limit};

// The unit's line: the lower of its share and of its limit.
fn unit_line(share: u64, tight: bool) -> u32
    ensures { result ≡ min share (unit_limit tight) }
{
    let limit = unit_limit(tight);
    if share < limit as u64 {
        return share as u32;
    }
    limit
}

// The hours over either line.
fn either_over(
    column: &[u32; layout::HOURS],
    sums: &[u64; layout::HOURS],
    unit: u32,
    group: u64,
) -> u32
    ensures { result ≡ mask_to most_hours (either_over column.now sums.now unit group) }
{
    let own = hours_over(column, unit);
    let group_sum = sums_over(sums, group);
    own | group_sum
}

// The hours over their lines, which are lower in a tight hour.
fn over_shares(
    column: &[u32; layout::HOURS],
    sums: &[u64; layout::HOURS],
    tight: u32,
    unit: u64,
    group: u64,
) -> u32
    ensures { result ≡ mask_to most_hours (over_shares column.now sums.now tight unit group) }
{
    let far = either_over(
        column,
        sums,
        unit_line(unit, false),
        group.min(group_limit(false)),
    );
    if tight == 0 {
        return far;
    }
    let near = either_over(
        column,
        sums,
        unit_line(unit, true),
        group.min(group_limit(true)),
    );
    far | (near & tight)
}

// The hours whose withheld megawatts fail; sums are the group's and g its listed capability.
pub fn withheld_hours(
    column: &[u32; layout::HOURS],
    sums: &[u64; layout::HOURS],
    tight: u32,
    capability: u32,
    g: u64,
) -> u32
    ensures { result ≡ mask_to most_hours (withheld_hour column.now sums.now tight capability g) }
{
    let unit = (capability as u64) / conduct_tests::UNIT_SHARE;
    let group = g / conduct_tests::GROUP_SHARE;
    over_shares(column, sums, tight, unit, group)
}

// The hours whose undelivered megawatts fail; the group's sum has its limit alone.
pub fn dispatch_hours(
    column: &[u32; layout::HOURS],
    sums: &[u64; layout::HOURS],
    tight: u32,
    rate: u32,
) -> u32
    ensures { result ≡ mask_to most_hours (dispatch_hour column.now sums.now tight rate) }
{
    let unit = conduct_tests::RESPONSE_MINUTES * (rate as u64);
    over_shares(column, sums, tight, unit, group_limit(false))
}
