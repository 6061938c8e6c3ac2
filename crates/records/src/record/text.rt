// The assembler text of a record: the name, and the operands with a comma and a blank between them.
ghost use Rattle.std.specs.Prelude.{Some};
ghost use Rattle.records.specs.Records.{meaning};
ghost use Rattle.records.specs.Texts.{text};

use crate::operands::Operands;
use crate::record::Record;
use opcodes::Format;
use std::fmt;

impl fmt::Display for Record {
    ghost output = { λ x. Some (text (meaning x)) };

    fn fmt<W: fmt::Write>(&self, f: &mut fmt::Formatter<W>) -> fmt::Result {
        let name = self.kind.name();
        let Operands { a, b, c, imm } = self.operands;
        match self.kind.format() {
            Format::RegRegReg => write!(f, "{name} {a}, {b}, {c}"),
            Format::RegRegShift | Format::RegRegImm | Format::Branch => write!(
                f,
                "{name} {a}, {b}, {imm}"
            ),
            Format::Memory => write!(f, "{name} {a}, {imm}({b})"),
            Format::RegReg => write!(f, "{name} {a}, {b}"),
            Format::RegLongImm | Format::RegImm | Format::RegShift => write!(
                f,
                "{name} {a}, {imm}"
            ),
            Format::Reg => write!(f, "{name} {a}"),
            Format::Jump => write!(f, "{name} {imm}"),
            Format::Stack => write!(f, "{name} {a}, {imm}(x1)"),
            Format::Bare => write!(f, "{name}"),
        }
    }
}
