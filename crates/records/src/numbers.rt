// The numbers that a record is made of, besides its kind: untested yet, and so a type of their own beside the operands that they may be.
#[derive(Clone, Copy)]
pub(crate) struct Numbers {
    pub(crate) a: u8,
    pub(crate) b: u8,
    pub(crate) c: u8,
    pub(crate) imm: i32,
}
