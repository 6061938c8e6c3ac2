// What an instruction holds besides its kind.
use fields::RegisterNumber;

#[derive(Clone, Copy, PartialEq, Eq, Debug)]
pub(crate) struct Operands {
    pub(crate) a: RegisterNumber,
    pub(crate) b: RegisterNumber,
    pub(crate) c: RegisterNumber,
    pub(crate) imm: i16,
}
