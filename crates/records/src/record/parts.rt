// The parts of a record.
ghost use Rattle.std.specs.Prelude.{◌≡◌};

use crate::record::Record;
use fields::RegisterNumber;
use opcodes::Kind;

impl Record {
    pub fn kind(self) -> Kind
        ensures { result ≡ self.kind }
    {
        self.kind
    }

    // The registers in the order of the assembler text; x0 where the kind has fewer, since a record holds zero in every field that its format
    // does not use.
    pub fn a(self) -> RegisterNumber
        ensures { result ≡ self.operands.a }
    {
        self.operands.a
    }

    pub fn b(self) -> RegisterNumber
        ensures { result ≡ self.operands.b }
    {
        self.operands.b
    }

    pub fn c(self) -> RegisterNumber
        ensures { result ≡ self.operands.c }
    {
        self.operands.c
    }

    // The immediate; likewise 0 where the kind has none.
    pub fn imm(self) -> i16
        ensures { result ≡ self.operands.imm }
    {
        self.operands.imm
    }
}
