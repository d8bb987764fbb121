// Units by their number, and reference levels by their unit and component.
ghost use Rattle.std.specs.Prelude.{◌≡◌, ◌+◌, ◌*◌, ◌^◌, ◌<◌};
ghost use Rattle.casefile.specs.Decode.{references_in};
ghost use Rattle.casefile.specs.Lookup.{reference_key};
ghost use Rattle.casefile.specs.Sections.{units_of};
ghost use Rattle.limits.specs.StageLookup.{UnitsInOrder, InOrder, Between, IsPlace, level_in};

use binary::numbers::choose;
use casefile::case::Case;
use casefile::layout::Format;
use casefile::references::{reference_at, reference_count};

// The first place whose number is not below this one: as the numbers rise, how many are below. No branch hangs on a number.
fn unit_from(case: Case, number: u32) -> usize
    requires { UnitsInOrder case.format case.units.now }
    ensures { Between (units_of case.entry).number (units_of case.entry).count number result result }
{
    let n = case.unit_count();
    let mut at = 0;
    for k in 0..n {
        at += choose(case.unit_number(k) < number, 1, 0);
    }
    at
}

// The place of a number's unit, where it is listed.
pub fn unit_place(case: Case, number: u32) -> Option<usize>
    requires { UnitsInOrder case.format case.units.now }
    ensures { IsPlace (units_of case.entry) number result }
{
    let at = unit_from(case, number);
    if at < case.unit_count() {
        let listed = case.unit_number(at) == number;
        if listed {
            return Some(at);
        }
    }
    None
}

// The same, where the place of the last number is at hand: records of one unit often stand together.
pub fn next_place(case: Case, number: u32, last: u32, place: Option<usize>) -> Option<usize>
    requires { UnitsInOrder case.format case.units.now × IsPlace (units_of case) last place }
    ensures { IsPlace (units_of case.entry) number result }
{
    if number == last {
        return place;
    }
    unit_place(case, number)
}

// The order of references: by unit, then component.
fn key_of(unit: u32, component: u8) -> u64
    ensures { result ≡ 2 ^ 8 * unit + component }
{
    256 * (unit as u64) + (component as u64)
}

pub fn reference_key(format: Format, references: &[u8], i: usize) -> u64
    requires { i < (references_in format references.now).count }
    ensures { result ≡ reference_key (references_in format references.now) i }
{
    let reference = reference_at(format, references, i);
    key_of(reference.unit, reference.component)
}

// The first place whose key is not below this one: the stretch where it stands is halved each time. By hand, since the records are
// packed bytes, and no slice of values that the library could search.
fn reference_from(format: Format, references: &[u8], key: u64) -> usize
    requires { InOrder format references.now }
    ensures { Between (reference_key (references_in format references.now)) (references_in format references.now).count key result result }
{
    let mut lo = 0;
    let mut hi = reference_count(format, references);
    while lo < hi {
        let middle = lo + (hi - lo) / 2;
        let below = reference_key(format, references, middle) < key;
        lo = choose(below, middle + 1, lo);
        hi = choose(below, hi, middle);
    }
    lo
}

// The level of a unit's component, where it has a reference.
pub fn level_of(format: Format, references: &[u8], unit: u32, component: u8) -> Option<u32>
    requires { InOrder format references.now }
    ensures { result ≡ level_in (references_in format references.now) unit component }
{
    let key = key_of(unit, component);
    let at = reference_from(format, references, key);
    if at < reference_count(format, references) {
        let reference = reference_at(format, references, at);
        let there = key_of(reference.unit, reference.component) == key;
        if there {
            return Some(reference.value);
        }
    }
    None
}
