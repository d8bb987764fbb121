// Why a case is refused: the first limit that it breaks, in checking order.
ghost use Rattle.std.specs.Prelude.{◌≡◌};
ghost use Rattle.limits.specs.Numbers.{refusal_number};

#[derive(Clone, Copy, Debug, PartialEq, Eq)]
pub enum Refusal {
    Length = 1,
    Version = 2,
    SectionCount = 3,
    Offsets = 4,
    SectionSizes = 5,
    Numbers = 17,
    Units = 6,
    References = 7,
    Correction = 8,
    Past = 9,
    EventFields = 10,
    Days = 18,
    Periods = 19,
    EventOrder = 11,
    UnlistedUnit = 12,
    AboveCapability = 13,
    NoReference = 14,
    RowsTooShort = 15,
}

// The number by which document 01 and the calls from C name the limit.
impl From<Refusal> for u8 {
    ghost from_gives = { λ refusal number. number ≡ refusal_number refusal };

    fn from(refusal: Refusal) -> u8 {
        refusal as u8
    }
}
