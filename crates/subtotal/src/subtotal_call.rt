// The public call: a plant's part of its party-day's E.
ghost use Rattle.std.specs.Prelude.{◌&&◌, ◌≡◌, ◌*◌, ◌≤◌, ◌<◌, ltb, eqb, length};
ghost use Rattle.std.proofs.Math.IntN.{sub_ℕ};
ghost use Rattle.binary.specs.Integers.{word};
ghost use Rattle.binary.specs.Lists.{Holds};
ghost use Rattle.binary.specs.Word.{positive_part, negative_part};
ghost use Rattle.calls.specs.Answers.{figure_of};
ghost use Rattle.casefile.specs.Layout.{cell_width, most_hours};
ghost use Rattle.casefile.specs.Decode.{decode};
ghost use Rattle.casefile.specs.Lookup.{unit_of, bid_level};
ghost use Rattle.casefile.specs.Sections.{events_of};
ghost use Rattle.limits.specs.StageChecked.{AcceptedFile};
ghost use Rattle.sanctions.specs.StageGiven.{SmallAmounts};
ghost use Rattle.sanctions.specs.StageTables.{energy_in};
ghost use Rattle.subtotal.specs.Subtotal.{subtotal_of, subtotal_answer};

use binary::words::word_of;
use calls::answers::Refusal;
use case_check::check::check_into;
use casefile::case::Case;
use casefile::events::Event;
use casefile::layout;
use conduct::flags::find_flags;
use sanctions::fuel::event_energy;

// 10 × Q, and a × b over the hours of the mask, as a signed word.
fn part_over(event: Event, cells: &[u8], mask: u32) -> u64
    requires { (cell_width * most_hours ≤ length cells.now) × SmallAmounts cells.now }
    ensures { result ≡ word 64 (sub_ℕ (energy_in (positive_part 32) event.q cells.now mask) (energy_in (negative_part 32) event.q cells.now mask)) }
{
    let part = event_energy(event.q, cells, mask);
    word_of(part.gain, part.loss)
}

// The part of fuel event i of an accepted case: the hours of its flags are the union hours of its party-day.
fn part_at(
    file: &[u8],
    places: &[usize; layout::MOST_EVENTS],
    levels: &[u32; layout::MOST_EVENTS],
    i: usize,
) -> u64
    requires accepted_file { AcceptedFile file.now × (i < (decode file.now).events.count) × ((decode file.now).events.kind i ≡ 3) }
    requires places_found { Holds (decode file.now).events.count places.now (unit_of (decode file.now)) }
    requires levels_found { Holds (decode file.now).events.count levels.now (bid_level (decode file.now).references (decode file.now).events) }
    ensures { result ≡ word 64 (subtotal_of (decode file.now) i) }
{
    let mut groups = [0u16; layout::MOST_EVENTS];
    let mut leaders = [0usize; layout::MOST_EVENTS];
    let mut masks = [0u32; layout::MOST_EVENTS];
    find_flags(file, places, levels, &mut groups, &mut leaders, &mut masks);
    let case = Case::of(file);
    let event = case.event_at(i);
    let cells = case.event_cells(i);
    part_over(event, cells, masks[i])
}

// Whether there is such an event, and it is a fuel event.
fn is_fuel(case: Case, i: usize) -> bool
    ensures { result ≡ (ltb i (events_of case.entry).count && eqb ((events_of case.entry).kind i) 3) }
{
    if i < case.event_count() {
        let event = case.event_at(i);
        let kind = event.kind;
        return kind == 3;
    }
    false
}

// The part of E of an event's plant, as a signed word in tenths of a cent, of the case alone; a refused case has its number, and 10
// where the event is no fuel event.
pub fn subtotal(file: &[u8], event: usize) -> Result<u64, Refusal>
    ensures { result ≡ figure_of (subtotal_answer file.now event) }
{
    let mut places = [0usize; layout::MOST_EVENTS];
    let mut levels = [0u32; layout::MOST_EVENTS];
    let mut corrects = [0u32; layout::MOST_EVENTS];
    let checked = check_into(
        file,
        &file[..0],
        layout::MOST_ROWS,
        &mut places,
        &mut levels,
        &mut corrects,
    );
    if let Err(refusal) = checked {
        let number = u8::from(refusal);
        return Err(Refusal { number });
    }
    if is_fuel(Case::of(file), event) {
        return Ok(part_at(file, &places, &levels, event));
    }
    Err(Refusal::ARGUMENT)
}
