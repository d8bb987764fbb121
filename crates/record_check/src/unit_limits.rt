// Units: limit 6.
ghost use Rattle.std.specs.Prelude.{◌≡◌, ◌<◌};
ghost use Rattle.casefile.specs.Sections.{units_of};
ghost use Rattle.limits.specs.Refusal.{unit_fields_fine, unit_fine, units_fine};

use casefile::case::Case;
use casefile::records::place_before;
use tariff::ranges;

fn unit_fields_fine(
    area: u8,
    capability: u32,
    rate: u32,
    average_price: u32,
    constrained_hours: u16,
) -> bool
    ensures { result ≡ unit_fields_fine area capability rate average_price constrained_hours }
{
    (area <= ranges::HIGHEST_AREA)
        & (ranges::LOWEST_CAPABILITY <= capability)
        & (capability <= ranges::HIGHEST_CAPABILITY)
        & (rate <= ranges::HIGHEST_RATE)
        & (average_price <= ranges::HIGHEST_AVERAGE_PRICE)
        & (constrained_hours <= ranges::MOST_CONSTRAINED_HOURS)
}

fn unit_fine(case: Case, i: usize) -> bool
    requires { i < (units_of case).count }
    ensures { result ≡ unit_fine case.entry.format case.entry.units.now i }
{
    let unit = case.unit_at(i);
    let fields = unit_fields_fine(
        unit.area,
        unit.capability,
        unit.rate,
        unit.average_price,
        unit.constrained_hours,
    );
    let spare = case.unit_spare_fine(i);
    let last = case.unit_number(place_before(i));
    fields & spare & ((i == 0) | (last < unit.number))
}

pub fn units_fine(case: Case) -> bool
    ensures { result ≡ units_fine case.entry.format case.entry.units.now }
{
    (0..case.unit_count()).all(|i| unit_fine(case, i))
}
