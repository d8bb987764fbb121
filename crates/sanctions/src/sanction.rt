// What a row says of sanctions.

// The multiplier in halves, N3, N2, and the penalty in cents.
#[derive(Clone, Copy, Default)]
pub struct Sanction {
    pub multiplier: u8,
    pub n3: u16,
    pub n2: u16,
    pub penalty: u64,
}
