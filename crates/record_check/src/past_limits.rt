// Past entries: limit 9.
ghost use Rattle.std.specs.Prelude.{◌≡◌, ◌<◌};
ghost use Rattle.casefile.specs.Sections.{past_of};
ghost use Rattle.limits.specs.Refusal.{entry_fine, past_fine};

use casefile::case::Case;
use tariff::ranges;

fn entry_fine(case: Case, i: usize) -> bool
    requires { i < (past_of case).count }
    ensures { result ≡ entry_fine case.entry.past.now i }
{
    let entry = case.entry_at(i);
    let spare = case.entry_spare_fine(i);
    ((entry.kind == 1) | (entry.kind == 3))
        & (entry.market <= ranges::HIGHEST_MARKET)
        & (entry.day <= ranges::HIGHEST_DAY)
        & spare
}

pub fn past_fine(case: Case) -> bool
    ensures { result ≡ past_fine case.entry.past.now }
{
    (0..case.entry_count()).all(|i| entry_fine(case, i))
}
