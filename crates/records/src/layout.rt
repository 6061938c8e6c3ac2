// The operands that the bytes of each format hold, and the bytes that hold given operands.
ghost use Rattle.std.specs.Prelude.{◌≡◌, ◌/◌, ◌^◌, pos};
ghost use Rattle.std.specs.Option.{option_map};
ghost use Rattle.opcodes.specs.Formats.{code_width};
ghost use Rattle.records.specs.Codec.{encoded};
ghost use Rattle.records.specs.Images.{image_bytes};
ghost use Rattle.records.specs.Instructions.{fields as held, instruction, values};
ghost use Rattle.records.specs.Layouts.{read};

use crate::image::Image;
use crate::operands::Operands;
use fields::{RegisterNumber, eleven_bits, even_offset, low_byte, packed, six_bits, ten_bits};
use opcodes::{Format, Kind};

impl Operands {
    // Three registers and no immediate.
    fn of_three(a: RegisterNumber, b: RegisterNumber, c: RegisterNumber) -> Operands
        ensures { values result ≡ held a.number b.number c.number (pos 0) }
    {
        Operands { a, b, c, imm: 0 }
    }

    // Two registers and an immediate.
    fn of_two(a: RegisterNumber, b: RegisterNumber, imm: i16) -> Operands
        ensures { values result ≡ held a.number b.number 0 imm }
    {
        let c = RegisterNumber::zero();
        Operands { a, b, c, imm }
    }

    // One register and an immediate.
    fn of_one(a: RegisterNumber, imm: i16) -> Operands
        ensures { values result ≡ held a.number 0 0 imm }
    {
        Operands::of_two(a, RegisterNumber::zero(), imm)
    }

    // An immediate alone.
    fn of_none(imm: i16) -> Operands
        ensures { values result ≡ held 0 0 0 imm }
    {
        Operands::of_one(RegisterNumber::zero(), imm)
    }

    // The operands that the bytes of a format hold, unless they break a zero; the code in the first byte is not looked at. By its bytes and not an
    // `Image`: top is 0 where there are two.
    pub(crate) fn read(format: Format, low: u8, high: u8, top: u8) -> Option<Operands>
        ensures { option_map values result ≡ read format (low / 2 ^ code_width format) high top }
    {
        let x = RegisterNumber::in_low_nibble(high);
        let y = RegisterNumber::in_high_nibble(high);
        match format {
            Format::RegRegReg => Some(Operands::of_three(
                x,
                y,
                RegisterNumber::try_from(top).ok()?,
            )),
            Format::RegRegShift if top < 16 => Some(Operands::of_two(x, y, i16::from(top))),
            Format::RegRegImm | Format::Memory => Some(Operands::of_two(x, y, ten_bits(low, top))),
            Format::RegLongImm if high < 16 => Some(Operands::of_one(x, ten_bits(low, top))),
            Format::Branch => Some(Operands::of_two(y, x, ten_bits(low, top))),
            Format::RegReg => Some(Operands::of_two(x, y, 0)),
            Format::RegImm => Some(Operands::of_one(x, six_bits(low, high))),
            Format::RegShift => Some(Operands::of_one(x, i16::from(high / 16))),
            Format::Reg if high < 16 => Some(Operands::of_one(x, 0)),
            Format::Jump => Some(Operands::of_none(eleven_bits(low, high))),
            Format::Stack => Some(Operands::of_one(x, even_offset(low, high))),
            Format::Bare if high == 0 => Some(Operands::of_none(0)),
            Format::RegRegShift | Format::RegLongImm | Format::Reg | Format::Bare => None,
        }
    }

    // The bytes of an instruction of a kind with these operands.
    #[tactic(auto, using(opcodes::proofs::Named::code_lt), unfolding(crate::specs::Codec::encoded))]
    pub(crate) fn write(self, kind: Kind) -> Image
        ensures { image_bytes result ≡ encoded (instruction kind (values self)) }
    {
        let (a, b, c) = (self.a.number(), self.b.number(), self.c.number());
        let bits = self.imm.cast_unsigned();
        let top = low_byte(bits);
        let code = kind.code();
        let ten = packed::<6>(low_byte(bits / 256), code);
        match kind.format() {
            Format::RegRegReg => Image::Three(code, packed::<4>(b, a), c),
            Format::RegRegShift => Image::Three(code, packed::<4>(b, a), top),
            Format::RegRegImm | Format::Memory => Image::Three(ten, packed::<4>(b, a), top),
            Format::RegLongImm => Image::Three(ten, packed::<4>(0, a), top),
            Format::Branch => Image::Three(ten, packed::<4>(a, b), top),
            Format::RegReg => Image::Two(code, packed::<4>(b, a)),
            Format::RegImm => Image::Two(
                packed::<6>(low_byte(bits / 16), code),
                packed::<4>(top, a),
            ),
            Format::RegShift => Image::Two(code, packed::<4>(top, a)),
            Format::Reg => Image::Two(code, packed::<4>(0, a)),
            Format::Jump => Image::Two(packed::<5>(top, code), low_byte(bits / 8)),
            Format::Stack => {
                Image::Two(
                    packed::<6>(low_byte(bits / 32), code),
                    packed::<4>(low_byte(bits / 2), a),
                )
            }
            Format::Bare => Image::Two(code, 0),
        }
    }
}
