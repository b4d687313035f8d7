// Sheets from slices: what is before a first end means nothing to encode.
use format::Refusal;

// What two calls answered.
#[derive(Clone, Copy)]
pub struct Both {
    pub first: Result<(u64, u64), Refusal>,
    pub second: Result<(u64, u64), Refusal>,
}
