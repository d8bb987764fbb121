// Bits of a mask.
ghost use Rattle.std.specs.Prelude.{◌≡◌};
ghost use Rattle.binary.specs.Bounded.{bit_of};

// Bit i of a mask; no bit is set past bit 31.
pub fn bit_of(mask: u32, i: usize) -> bool
    ensures { result ≡ bit_of mask i }
{
    if i < 32 {
        let k = i as u32;
        return (mask >> k) % 2 == 1;
    }
    false
}
