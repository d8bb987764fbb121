// The header: the format, the pairs, and the sections.
ghost use Rattle.std.specs.Prelude.{◌≡◌, ◌≤◌, ◌<◌, length};
ghost use Rattle.casefile.specs.Layout.{section_count, header_width};
ghost use Rattle.casefile.specs.Decode.{format_in, sections_in, offset_of, length_of, section_of, HasSection};

use crate::layout::Format;
use binary::bytes::load;

pub fn offset_of(file: &[u8], k: usize) -> u32
    requires { (k < section_count) × (header_width ≤ length file.now) }
    ensures { result ≡ offset_of file.now k }
{
    load::<u32>(file, 4 + 8 * k)
}

pub fn length_of(file: &[u8], k: usize) -> u32
    requires { (k < section_count) × (header_width ≤ length file.now) }
    ensures { result ≡ length_of file.now k }
{
    load::<u32>(file, 8 + 8 * k)
}

// The format of a file: its version.
pub fn format_of(file: &[u8]) -> Format
    requires { header_width ≤ length file.now }
    ensures { result ≡ format_in file.now }
{
    Format {
        version: load::<u16>(file, 0),
    }
}

// How many sections the file says it has.
pub fn sections_of(file: &[u8]) -> u16
    requires { header_width ≤ length file.now }
    ensures { result ≡ sections_in file.now }
{
    load::<u16>(file, 2)
}

// Section k (0 units, 1 references, 2 past, 3 events): that stretch of the file itself.
pub fn section(file: &[u8], k: usize) -> &[u8]
    requires { HasSection file.now k }
    ensures { result.now ≡ section_of file.now k }
{
    let at = offset_of(file, k) as usize;
    let n = length_of(file, k) as usize;
    let end = at + n;
    &file[at..end]
}
