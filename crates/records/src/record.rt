// A record: one instruction as kind, registers and immediate. None exists whose fields its kind does not allow.
ghost use Rattle.records.specs.Instructions.{Legal};

use crate::operands::Operands;
use opcodes::Kind;

pub(crate) mod codec;
mod make;
mod parts;
pub(crate) mod text;

#[derive(Clone, Copy, PartialEq, Eq, Debug)]
pub struct Record {
    kind: Kind,
    operands: Operands,
    ghost legal: { Legal kind operands },
}
