// Events: the reader, and the part where the hour cells begin.
ghost use Rattle.std.specs.Prelude.{◌≡◌, ◌+◌, ◌*◌, ◌<◌, ◌≤◌, length};
ghost use Rattle.casefile.specs.Layout.{event_width, cells_offset, cell_width, most_hours};
ghost use Rattle.casefile.specs.Decode.{record_at, cells_from};
ghost use Rattle.casefile.specs.StageRead.{event_at};
ghost use Rattle.casefile.specs.Sections.{events_of};

use crate::case::Case;
use crate::layout;
use crate::layout::widths_of;
use crate::records::{count_of, number_at, record_at};
use binary::bytes::load;

// The fields as they stand: a kind is a number, since event_at reads those that limits refuse too.
#[derive(Clone, Copy)]
pub struct Event {
    pub kind: u8,
    pub market: u8,
    pub unit: u32,
    pub period: u16,
    pub component: u8,
    pub impact: u8,
    pub day: u32,
    pub hours: usize,
    pub p: u32,
    pub q: u32,
    pub r: u32,
}

impl<'a> Case<'a> {
    pub fn event_count(self) -> usize
        ensures { result ≡ (events_of self.entry).count }
    {
        let w = widths_of(self.format);
        count_of(self.events, w.event_width)
    }

    // The record of event i.
    fn event_record(self, i: usize) -> &'a [u8]
        requires { i < (events_of self).count }
        ensures { (result.now ≡ record_at (event_width self.entry.format) self.entry.events.now i) × (length result.now ≡ event_width self.entry.format) × (cells_offset + cell_width * most_hours ≤ length result.now) }
    {
        let w = widths_of(self.format);
        record_at(self.events, i, w.event_width)
    }

    // The fields of event i, as they stand.
    pub fn event_at(self, i: usize) -> Event
        requires { i < (events_of self).count }
        ensures { result ≡ event_at (events_of self.entry) i }
    {
        let w = widths_of(self.format);
        let event = self.event_record(i);
        Event {
            kind: load::<u8>(event, 0),
            market: load::<u8>(event, 1),
            unit: number_at(event, w.event_unit, w.number_width),
            period: load::<u16>(event, 4),
            component: load::<u8>(event, 6),
            impact: load::<u8>(event, 7),
            day: load::<u32>(event, 8),
            hours: layout::HOURS,
            p: load::<u32>(event, 12),
            q: load::<u32>(event, 16),
            r: load::<u32>(event, 20),
        }
    }

    // The part of event i where its cells begin, to the record's end.
    pub fn event_cells(self, i: usize) -> &'a [u8]
        requires { i < (events_of self).count }
        ensures { (result.now ≡ cells_from self.entry.format self.entry.events.now i) × (cell_width * most_hours ≤ length result.now) }
    {
        let event = self.event_record(i);
        &event[layout::CELLS_OFFSET..]
    }
}
