// Decimal text in a buffer that the caller lends.
ghost use Rattle.std.specs.Prelude.{◌∷◌, [], ◌+◌, ◌<◌, ◌≤◌, length};
ghost use Rattle.report.specs.Decimal.{decimal_to, decimal, field};
ghost use Rattle.report.specs.StagePut.{Put};

// Puts one byte at `at`, and answers the position after it.
pub fn put_byte(out: &mut [u8], at: usize, b: u8) -> usize
    requires { at < length out.old }
    ensures { Put out.old at (b ∷ []) out.new result }
{
    out[at] = b;
    at + 1
}

// Puts the decimal digits of `n`, at most `places` of them.
fn put_digits(out: &mut [u8], at: usize, n: u64, places: usize) -> usize
    requires { at + places ≤ length out.old }
    ensures { Put out.old at (decimal_to places n) out.new result }
{
    if places == 0 {
        return at;
    }
    if n < 10 {
        return put_byte(out, at, (48 + n) as u8);
    }
    let next = put_digits(out, at, n / 10, places - 1);
    put_byte(out, next, (48 + n % 10) as u8)
}

// Puts `n` in decimal.
pub fn put_decimal(out: &mut [u8], at: usize, n: u64) -> usize
    requires { at + 20 ≤ length out.old }
    ensures { Put out.old at (decimal n) out.new result }
{
    put_digits(out, at, n, 20)
}

// Puts `n` in decimal and then the byte `end`: a space or a line end.
pub fn put_field(out: &mut [u8], at: usize, n: u64, end: u8) -> usize
    requires { at + 21 ≤ length out.old }
    ensures { Put out.old at (field n end) out.new result × (result ≤ at + 21) }
{
    let next = put_decimal(out, at, n);
    put_byte(out, next, end)
}

// Puts the bytes of `s`.
pub fn put_bytes(out: &mut [u8], at: usize, s: &[u8]) -> usize
    requires { at + length s.now ≤ length out.old }
    ensures { Put out.old at s.now out.new result }
{
    let end = at + s.len();
    out[at..end].copy_from_slice(s);
    end
}
