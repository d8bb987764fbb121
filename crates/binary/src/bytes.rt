// Little-endian numbers read from and stored into a slice, at an offset that the caller knows to be in range.
ghost use Rattle.std.specs.Prelude.{ℕ, List, ◌≡◌, ◌+◌, ◌≤◌, length, refl};
ghost use Rattle.std.proofs.lemmas.List.Edits.{sets};
ghost use Rattle.binary.specs.Bytes.{byte_at, value_at, u16_at, u32_at, u64_at, bytes_of, byte_value};

// A number that is kept in bytes, the lowest first.
pub trait LittleEndian: Copy {
    ghost WIDTH: { ℕ };

    ghost number: { Self → ℕ };

    ghost number_at: { List ℕ → ℕ → Self };

    const WIDTH: usize;

    // The number at an offset.
    fn read(s: &[u8], at: usize) -> Self
        requires { at + WIDTH ≤ length s.now }
        ensures { result ≡ number_at s.now at };

    fn wide(self) -> u64
        ensures { result ≡ number self };

    ghost is_its_bytes: { (s : List ℕ) (at : ℕ) → number (number_at s at) ≡ value_at WIDTH s at };
}

impl LittleEndian for u8 {
    ghost WIDTH = { 1 };

    ghost number = { λ n. n };

    ghost number_at = { byte_at };

    ghost is_its_bytes = { byte_value };

    const WIDTH: usize = 1;

    fn read(s: &[u8], at: usize) -> u8 {
        s[at]
    }

    fn wide(self) -> u64 {
        u64::from(self)
    }
}

impl LittleEndian for u16 {
    ghost WIDTH = { 2 };

    ghost number = { λ n. n };

    ghost number_at = { u16_at };

    ghost is_its_bytes = { λ s at. refl };

    const WIDTH: usize = 2;

    fn read(s: &[u8], at: usize) -> u16 {
        let low = load::<u8>(s, at);
        let high = load::<u8>(s, at + 1);
        u16::from(low) + 256 * u16::from(high)
    }

    fn wide(self) -> u64 {
        u64::from(self)
    }
}

impl LittleEndian for u32 {
    ghost WIDTH = { 4 };

    ghost number = { λ n. n };

    ghost number_at = { u32_at };

    ghost is_its_bytes = { λ s at. refl };

    const WIDTH: usize = 4;

    fn read(s: &[u8], at: usize) -> u32 {
        let low = load::<u16>(s, at);
        let high = load::<u16>(s, at + 2);
        u32::from(low) + 65536 * u32::from(high)
    }

    fn wide(self) -> u64 {
        u64::from(self)
    }
}

impl LittleEndian for u64 {
    ghost WIDTH = { 8 };

    ghost number = { λ n. n };

    ghost number_at = { u64_at };

    ghost is_its_bytes = { λ s at. refl };

    const WIDTH: usize = 8;

    fn read(s: &[u8], at: usize) -> u64 {
        let low = load::<u32>(s, at);
        let high = load::<u32>(s, at + 4);
        u64::from(low) + 4294967296 * u64::from(high)
    }

    fn wide(self) -> u64 {
        self
    }
}

pub fn load<N: LittleEndian>(s: &[u8], at: usize) -> N
    requires { at + N.WIDTH ≤ length s.now }
    ensures { result ≡ N.number_at s.now at }
{
    N::read(s, at)
}

pub fn store<N: LittleEndian>(s: &mut [u8], at: usize, v: N)
    requires { at + N.WIDTH ≤ length s.old }
    ensures { s.new ≡ sets s.old at (bytes_of N.WIDTH (N.number v)) }
{
    let mut rest = v.wide();
    for k in 0..N::WIDTH {
        s[at + k] = (rest % 256) as u8;
        rest = rest / 256;
    }
}
