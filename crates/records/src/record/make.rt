// Making a record of numbers.
ghost use Rattle.std.specs.Prelude.{◌≡◌};
ghost use Rattle.records.specs.Records.{made, outcome, outcome_values, taken};

use crate::numbers::Numbers;
use crate::operands::Operands;
use crate::record::Record;
use crate::refusal::RecordError;
use crate::shape::Shape;
use fields::RegisterNumber;
use opcodes::{Format, Kind};

impl Numbers {
    // The operands of a format that these numbers are.
    fn operands(self, format: Format) -> Result<Operands, RecordError>
        ensures { outcome_values result ≡ taken format self.a self.b self.c self.imm }
    {
        let a = RegisterNumber::try_from(self.a)?;
        let b = RegisterNumber::try_from(self.b)?;
        let c = RegisterNumber::try_from(self.c)?;
        let shape = Shape::of(format);
        if !shape.unused_zero(self) {
            return Err(RecordError::UnusedField);
        }
        if !shape.in_range(self.imm) {
            return Err(RecordError::OutOfRange);
        }
        if !shape.even_enough(self.imm) {
            return Err(RecordError::OddOffset);
        }
        Ok(Operands {
            a,
            b,
            c,
            imm: self.imm as i16,
        })
    }
}

impl Record {
    // A record of a kind by its number, registers a, b, c in the order of the assembler text, and an immediate. Numbers and not their types:
    // this call is what tests them, and its refusals have an order.
    pub fn new(kind: u8, a: u8, b: u8, c: u8, imm: i32) -> Result<Record, RecordError>
        ensures { outcome result ≡ made kind a b c imm }
    {
        let kind = Kind::try_from(kind)?;
        let operands = Numbers { a, b, c, imm }.operands(kind.format())?;
        Ok(Record { kind, operands })
    }
}
