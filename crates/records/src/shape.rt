// What a record of each format may hold.
ghost use Rattle.std.specs.Prelude.{◌≡◌};
ghost use Rattle.records.specs.Shapes.{entry, shape, unused_registers_zero, unused_zero, in_range, even_enough};

use crate::numbers::Numbers;
use opcodes::Format;

// The least and the greatest immediate, and whether it has to be even.
#[derive(Clone, Copy)]
struct Bounds {
    lowest: i16,
    highest: i16,
    even: bool,
}

// Of shifts, and of immediates of ten, six and eleven bits.
const SHIFT: Bounds = Bounds {
    lowest: 0,
    highest: 15,
    even: false,
};

const TEN_BITS: Bounds = Bounds {
    lowest: -512,
    highest: 511,
    even: false,
};

const SIX_BITS: Bounds = Bounds {
    lowest: -32,
    highest: 31,
    even: false,
};

const ELEVEN_BITS: Bounds = Bounds {
    lowest: -1024,
    highest: 1023,
    even: false,
};

// Of the offsets of the stack forms.
const STACK: Bounds = Bounds {
    lowest: 0,
    highest: 126,
    even: true,
};

// How many of the registers a, b, c there are, and the bounds of the immediate if there is one.
#[derive(Clone, Copy)]
pub(crate) struct Shape {
    registers: u8,
    immediate: Option<Bounds>,
}

impl Shape {
    const fn new(registers: u8, immediate: Option<Bounds>) -> Shape
        ensures { result ≡ entry registers immediate }
    {
        Shape {
            registers,
            immediate,
        }
    }

    pub(crate) fn of(format: Format) -> Shape
        ensures { result ≡ shape format }
    {
        match format {
            Format::RegRegReg => Shape::new(3, None),
            Format::RegRegShift => Shape::new(2, Some(SHIFT)),
            Format::RegRegImm => Shape::new(2, Some(TEN_BITS)),
            Format::RegLongImm => Shape::new(1, Some(TEN_BITS)),
            Format::Branch => Shape::new(2, Some(TEN_BITS)),
            Format::Memory => Shape::new(2, Some(TEN_BITS)),
            Format::RegReg => Shape::new(2, None),
            Format::RegImm => Shape::new(1, Some(SIX_BITS)),
            Format::RegShift => Shape::new(1, Some(SHIFT)),
            Format::Reg => Shape::new(1, None),
            Format::Jump => Shape::new(0, Some(ELEVEN_BITS)),
            Format::Stack => Shape::new(1, Some(STACK)),
            Format::Bare => Shape::new(0, None),
        }
    }

    // Whether each register that the format does not use is zero.
    fn unused_registers_zero(self, numbers: Numbers) -> bool
        ensures { result ≡ unused_registers_zero self numbers.a numbers.b numbers.c }
    {
        (self.registers > 0 || numbers.a == 0)
            && (self.registers > 1 || numbers.b == 0)
            && (self.registers > 2 || numbers.c == 0)
    }

    // Whether each field that the format does not use is zero.
    pub(crate) fn unused_zero(self, numbers: Numbers) -> bool
        ensures { result ≡ unused_zero self numbers.a numbers.b numbers.c numbers.imm }
    {
        self.unused_registers_zero(numbers) && (self.immediate.is_some() || numbers.imm == 0)
    }

    // Whether an immediate is within its bounds.
    pub(crate) fn in_range(self, imm: i32) -> bool
        ensures { result ≡ in_range self imm }
    {
        match self.immediate {
            Some(bounds) => i32::from(bounds.lowest) <= imm && imm <= i32::from(bounds.highest),
            None => imm == 0,
        }
    }

    // Whether an immediate that has to be even is.
    pub(crate) fn even_enough(self, imm: i32) -> bool
        ensures { result ≡ even_enough self imm }
    {
        match self.immediate {
            Some(bounds) => !bounds.even || imm % 2 == 0,
            None => true,
        }
    }
}
