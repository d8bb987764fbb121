// The sections of a case file and its format, by which their records are read: what the readers and the stages take.
ghost use Rattle.std.specs.Prelude.{◌≡◌};
ghost use Rattle.binary.specs.Lists.{Bytes};
ghost use Rattle.casefile.specs.Decode.{format_in, section_of, HasSection};

use crate::header::{format_of, section};
use crate::layout::Format;

#[derive(Clone, Copy)]
pub struct Case<'a> {
    pub format: Format,
    pub units: &'a [u8],
    pub references: &'a [u8],
    pub past: &'a [u8],
    pub events: &'a [u8],
    // What the type says of the events alone, which a proof does not know of a slice in a struct.
    ghost bytes: { Bytes events.now },
}

impl<'a> Case<'a> {
    // The case of sections that lie anywhere: nothing is asked of them.
    pub fn of_sections(
        format: Format,
        units: &'a [u8],
        references: &'a [u8],
        past: &'a [u8],
        events: &'a [u8],
    ) -> Case<'a>
        ensures format { result.format ≡ format }
        ensures units { result.units.now ≡ units.now }
        ensures references { result.references.now ≡ references.now }
        ensures past { result.past.now ≡ past.now }
        ensures events { result.events.now ≡ events.now }
    {
        Case {
            format,
            units,
            references,
            past,
            events,
        }
    }

    // The case of a file: each section a stretch of the file itself.
    pub fn of(file: &'a [u8]) -> Case<'a>
        requires units { HasSection file.now 0 }
        requires references { HasSection file.now 1 }
        requires past { HasSection file.now 2 }
        requires events { HasSection file.now 3 }
        ensures format { result.format ≡ format_in file.now }
        ensures units { result.units.now ≡ section_of file.now 0 }
        ensures references { result.references.now ≡ section_of file.now 1 }
        ensures past { result.past.now ≡ section_of file.now 2 }
        ensures events { result.events.now ≡ section_of file.now 3 }
    {
        Case::of_sections(
            format_of(file),
            section(file, 0),
            section(file, 1),
            section(file, 2),
            section(file, 3),
        )
    }
}
