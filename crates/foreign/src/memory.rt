// What such a chip holds.
#[derive(Clone, Copy)]
pub(crate) struct Memory {
    pub(crate) number: u32,
    pub(crate) sr1: u8,
    pub(crate) wp: bool,
    pub(crate) armed: bool,
    pub(crate) busy: u16,
    pub(crate) carry: u32,
}
