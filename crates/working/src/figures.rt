// The figures of one hour of one event, and what its working says of them.

// S, G, and how many events of the party-day have the hour in P; 0 where the kind has no such figure.
#[derive(Clone, Copy)]
pub struct Sums {
    pub s: u64,
    pub g: u64,
    pub fuel_events: u64,
}

// What the test of the hour reads; reference and sums are 0 where the kind has none.
#[derive(Clone, Copy)]
pub struct Figures {
    pub kind: u8,
    pub component: u8,
    pub market: u8,
    pub tight: bool,
    pub a: u32,
    pub reference: u32,
    pub capability: u32,
    pub rate: u32,
    pub average_price: u32,
    pub constrained_hours: u16,
    pub s: u64,
    pub g: u64,
    pub fuel_events: u64,
    pub total: u64,
}

// N3 and N2 of a row.
#[derive(Clone, Copy)]
pub struct Counts {
    pub n3: u16,
    pub n2: u16,
}

// The refusal's number, or 0 and the working, laid out for C.
#[repr(C)]
#[derive(Drop)]
pub struct Working {
    pub number: u8,
    pub flagged: bool,
    pub tight: bool,
    pub failed: u8,
    pub taken: u8,
    pub a: u32,
    pub reference: u32,
    pub increase: u32,
    pub decrease: u64,
    pub s: u64,
    pub g: u64,
    pub total: u64,
    pub n3: u16,
    pub n2: u16,
    pub left: [u64; 4],
    pub right: [u64; 4],
}
