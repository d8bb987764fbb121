// Reads a case from standard input and writes its listing to standard output, in one write.
#![tactic(auto)]

ghost use Rattle.std.specs.Prelude.{◌≤◌, length, IfOk};

use std::io;
use std::io::{ErrorKind, Read};

// Fills the buffer from its start on, up to its end or that of the input: how many bytes came.
fn read_full(input: &mut impl Read, buffer: &mut [u8]) -> io::Result<usize>
    ensures { IfOk result (λ n. n ≤ length buffer.new) }
{
    let mut n = 0;
    for _ in 0..u64::MAX {
        match input.read(&mut buffer[n..]) {
            Ok(0) => break,
            Ok(more) => n += more,
            Err(error) if error.kind() == ErrorKind::Interrupted => {}
            Err(error) => return Err(error),
        }
    }
    Ok(n)
}

fn main(rt: HostRuntime) -> io::Result<()> {
    // one byte more than a case may have, so that a longer input is seen to be too long
    let mut file = [0u8; 65001];
    let n = read_full(&mut rt.reader(), &mut file)?;
    let mut rows = [0u8; 25600];
    let mut out = [0u8; 42048];
    let length = report::case_listing::listing(&file[..n], &mut rows, &mut out);
    rt.write_all(&out[..length])
}
