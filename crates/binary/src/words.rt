// The two parts of a signed word, its range, and the word of a difference.
ghost use Rattle.std.specs.Prelude.{ℕ, ◌≡◌, ◌<◌, ◌-◌, ◌^◌, ltb, leb};
ghost use Rattle.std.proofs.Math.IntN.{sub_ℕ};
ghost use Rattle.binary.specs.Integers.{word};
ghost use Rattle.binary.specs.Word.{positive_part, negative_part, within};

// A signed word, kept as the unsigned number of its two's complement.
pub trait Word: Copy {
    ghost bits: { ℕ };

    ghost number: { Self → ℕ };

    fn zero() -> Self
        ensures { number result ≡ 0 };

    // Whether the value is not negative.
    fn is_low(self) -> bool
        ensures { result ≡ ltb (number self) (2 ^ (bits - 1)) };

    fn minus(self) -> Self
        requires { 0 < number self }
        ensures { number result ≡ 2 ^ bits - number self };

    // The order of the unsigned numbers.
    fn is_at_most(self, n: Self) -> bool
        ensures { result ≡ leb (number self) (number n) };

    // The value, or 0 if negative.
    final fn positive_part(self) -> Self
        ensures { number result ≡ positive_part bits (number self) }
    {
        if self.is_low() { self } else { Self::zero() }
    }

    // Minus the value, or 0 if the value is not negative.
    final fn negative_part(self) -> Self
        ensures { number result ≡ negative_part bits (number self) }
    {
        if self.is_low() {
            Self::zero()
        } else {
            self.minus()
        }
    }

    // Whether the value is from -n to n.
    final fn is_within(self, n: Self) -> bool
        ensures { result ≡ within bits (number n) (number self) }
    {
        let up = self.positive_part();
        let down = self.negative_part();
        up.is_at_most(n) & down.is_at_most(n)
    }
}

impl Word for u32 {
    ghost bits = { 32 };

    ghost number = { λ w. w };

    fn zero() -> u32 {
        0
    }

    fn is_low(self) -> bool {
        self < 1 << 31
    }

    fn minus(self) -> u32 {
        u32::MAX - self + 1
    }

    fn is_at_most(self, n: u32) -> bool {
        self <= n
    }
}

impl Word for u64 {
    ghost bits = { 64 };

    ghost number = { λ w. w };

    fn zero() -> u64 {
        0
    }

    fn is_low(self) -> bool {
        self < 1 << 63
    }

    fn minus(self) -> u64 {
        u64::MAX - self + 1
    }

    fn is_at_most(self, n: u64) -> bool {
        self <= n
    }
}

// x less y, as a signed word.
pub fn word_of(x: u64, y: u64) -> u64
    ensures { result ≡ word 64 (sub_ℕ x y) }
{
    if y <= x { x - y } else { (y - x).minus() }
}
