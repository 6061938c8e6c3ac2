// The formats of the instructions: where the bytes hold the fields, and how the text shows them.
#[derive(Clone, Copy, PartialEq, Eq, Debug)]
pub enum Format {
    // three bytes
    RegRegReg,
    RegRegShift,
    RegRegImm,
    RegLongImm,
    Branch,
    Memory,
    // two bytes
    RegReg,
    RegImm,
    RegShift,
    Reg,
    Jump,
    Stack,
    Bare,
}
