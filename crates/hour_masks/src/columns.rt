// The hours of a column that are past a line. A column has one figure of each hour, side by side, so that several are compared at once.
ghost use Rattle.std.specs.Prelude.{◌≡◌};
ghost use Rattle.binary.specs.Bounded.{mask_to};
ghost use Rattle.casefile.specs.Layout.{most_hours};
ghost use Rattle.hour_masks.specs.StageColumns.{over, above, below};

use binary::bounded::mask_to;
use binary::words::Word;
use casefile::layout;

// The hours whose figure is over a line.
pub fn hours_over(column: &[u32; layout::HOURS], line: u32) -> u32
    ensures { result ≡ mask_to most_hours (over column.now line) }
{
    mask_to(layout::HOURS, |h| line < column[h])
}

// The hours whose sum is over a line.
pub fn sums_over(sums: &[u64; layout::HOURS], line: u64) -> u32
    ensures { result ≡ mask_to most_hours (over sums.now line) }
{
    mask_to(layout::HOURS, |h| line < sums[h])
}

// The hours whose signed word is above a line.
pub fn hours_above(column: &[u32; layout::HOURS], line: u32) -> u32
    ensures { result ≡ mask_to most_hours (above column.now line) }
{
    mask_to(layout::HOURS, |h| line < column[h].positive_part())
}

// The hours whose signed word is below a line.
pub fn hours_below(column: &[u32; layout::HOURS], line: u32) -> u32
    ensures { result ≡ mask_to most_hours (below column.now line) }
{
    mask_to(layout::HOURS, |h| column[h].positive_part() < line)
}
