// What a W25Q16JW has beyond SR1. A W25X16A has none of it, and reads as if all were 0.
#[derive(Clone, Copy, Default)]
pub(crate) struct Rest {
    pub(crate) sr2: u8,
    pub(crate) sr3: u8,
    pub(crate) locks: u64,
}
