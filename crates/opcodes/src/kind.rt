// The fifty kinds of instruction, and what each is: its number, its name as typed, its code and its format.
ghost use Rattle.std.specs.Prelude.{◌≡◌, ◌==◌, Decides, slice_get};
ghost use Rattle.std.specs.Result.{result_ok};
ghost use Rattle.opcodes.specs.Kinds.{number, name, code, format, kinds, kind_numbered};
ghost use Rattle.opcodes.specs.Rows.{IsRow, IsTable};
ghost use Rattle.opcodes.specs.Equality.{equal_numbers};

use crate::format::Format;

// In the order of their numbers.
#[derive(Clone, Copy, Eq, Debug)]
pub enum Kind {
    Add = 1,
    Sub,
    And,
    Xor,
    Or,
    Lsl,
    Lsr,
    Asr,
    Addi,
    Andi,
    Xori,
    Ori,
    Li,
    Lsli,
    Lsri,
    Asri,
    Beq,
    Bne,
    Blt,
    Bltu,
    Ble,
    Bleu,
    Lw,
    Lb,
    Lbu,
    Sw,
    Sb,
    Mov,
    Add2,
    Sub2,
    And2,
    Xor2,
    Or2,
    Lsl2,
    Lsr2,
    Asr2,
    Addi2,
    Andi2,
    Lsi,
    Lui,
    Lsli2,
    Lsri2,
    Asri2,
    Jalr,
    Jr,
    Js,
    Jsal,
    Lwsp,
    Swsp,
    Nop,
}

// A kind, its name as it is typed, its code and its format.
struct Row(Kind, &'static str, u8, Format);

// The kinds by number, from 1 on.
const ROWS: &[Row; 50] = &[
    Row(Kind::Add, "add", 0x01, Format::RegRegReg),
    Row(Kind::Sub, "sub", 0x09, Format::RegRegReg),
    Row(Kind::And, "and", 0x11, Format::RegRegReg),
    Row(Kind::Xor, "xor", 0x19, Format::RegRegReg),
    Row(Kind::Or, "or", 0x21, Format::RegRegReg),
    Row(Kind::Lsl, "lsl", 0x29, Format::RegRegReg),
    Row(Kind::Lsr, "lsr", 0x31, Format::RegRegReg),
    Row(Kind::Asr, "asr", 0x39, Format::RegRegReg),
    Row(Kind::Addi, "addi", 0x03, Format::RegRegImm),
    Row(Kind::Andi, "andi", 0x13, Format::RegRegImm),
    Row(Kind::Xori, "xori", 0x1B, Format::RegRegImm),
    Row(Kind::Ori, "ori", 0x23, Format::RegRegImm),
    Row(Kind::Li, "li", 0x35, Format::RegLongImm),
    Row(Kind::Lsli, "lsli", 0x2B, Format::RegRegShift),
    Row(Kind::Lsri, "lsri", 0x33, Format::RegRegShift),
    Row(Kind::Asri, "asri", 0x3B, Format::RegRegShift),
    Row(Kind::Beq, "beq", 0x0F, Format::Branch),
    Row(Kind::Bne, "bne", 0x2F, Format::Branch),
    Row(Kind::Blt, "blt", 0x37, Format::Branch),
    Row(Kind::Bltu, "bltu", 0x17, Format::Branch),
    Row(Kind::Ble, "ble", 0x3F, Format::Branch),
    Row(Kind::Bleu, "bleu", 0x1F, Format::Branch),
    Row(Kind::Lw, "lw", 0x15, Format::Memory),
    Row(Kind::Lb, "lb", 0x25, Format::Memory),
    Row(Kind::Lbu, "lbu", 0x05, Format::Memory),
    Row(Kind::Sw, "sw", 0x1D, Format::Memory),
    Row(Kind::Sb, "sb", 0x0D, Format::Memory),
    Row(Kind::Mov, "mov", 0xC0, Format::RegReg),
    Row(Kind::Add2, "add2", 0x80, Format::RegReg),
    Row(Kind::Sub2, "sub2", 0x88, Format::RegReg),
    Row(Kind::And2, "and2", 0x90, Format::RegReg),
    Row(Kind::Xor2, "xor2", 0x98, Format::RegReg),
    Row(Kind::Or2, "or2", 0xA0, Format::RegReg),
    Row(Kind::Lsl2, "lsl2", 0xA8, Format::RegReg),
    Row(Kind::Lsr2, "lsr2", 0xB0, Format::RegReg),
    Row(Kind::Asr2, "asr2", 0xB8, Format::RegReg),
    Row(Kind::Addi2, "addi2", 0x02, Format::RegImm),
    Row(Kind::Andi2, "andi2", 0x12, Format::RegImm),
    Row(Kind::Lsi, "lsi", 0x34, Format::RegImm),
    Row(Kind::Lui, "lui", 0x04, Format::RegImm),
    Row(Kind::Lsli2, "lsli2", 0x2A, Format::RegShift),
    Row(Kind::Lsri2, "lsri2", 0x32, Format::RegShift),
    Row(Kind::Asri2, "asri2", 0x3A, Format::RegShift),
    Row(Kind::Jalr, "jalr", 0x16, Format::Reg),
    Row(Kind::Jr, "jr", 0x06, Format::Reg),
    Row(Kind::Js, "js", 0x0E, Format::Jump),
    Row(Kind::Jsal, "jsal", 0x1E, Format::Jump),
    Row(Kind::Lwsp, "lwsp", 0x14, Format::Stack),
    Row(Kind::Swsp, "swsp", 0x1C, Format::Stack),
    Row(Kind::Nop, "nop", 0x00, Format::Bare),
];

// By hand, since the derived one says neither to callers nor to generic code that it compares the numbers.
impl PartialEq for Kind {
    ghost eq = { λ x y. number x == number y };

    ghost laws = { equal_numbers };

    // Kinds are equal where they are the same kind.
    fn eq(&self, other: &Kind) -> bool
        ensures value { result ≡ (number self.now == number other.now) }
        ensures same { Decides result (self.now ≡ other.now) }
    {
        *self as u8 == *other as u8
    }
}

// A number that no kind has.
#[derive(Clone, Copy, Debug, PartialEq, Eq)]
pub struct UnknownKind;

// The kind with a number, if it is 1 to 50.
impl TryFrom<u8> for Kind {
    type Error = UnknownKind;

    ghost try_from_gives = { λ n r. result_ok r ≡ kind_numbered n };

    #[tactic(auto, unfolding(crate::specs::Kinds::kind_numbered))]
    fn try_from(number: u8) -> Result<Kind, UnknownKind> {
        let place = number.checked_sub(1).ok_or(UnknownKind)?;
        kind_at(ROWS, place).ok_or(UnknownKind)
    }
}

impl Kind {
    // 1 to 50. No `From` into numbers, which would not say whether this one is meant or the code.
    pub fn number(self) -> u8
        ensures { result ≡ number self }
    {
        self as u8
    }

    fn row(self) -> &'static Row
        ensures { IsRow self result.now }
    {
        row_of(ROWS, self)
    }

    // The name as it is typed, in lower case: a static text, which a record's `Display` uses as it is.
    pub fn name(self) -> &'static str
        ensures { result.now ≡ name self }
    {
        self.row().1
    }

    // The bits of the first byte that name the kind: its low eight, six or five, as the format has it.
    pub fn code(self) -> u8
        ensures { result ≡ code self }
    {
        self.row().2
    }

    // Where the bytes hold the fields.
    pub fn format(self) -> Format
        ensures { result ≡ format self }
    {
        self.row().3
    }
}

// The kind in a row of a table, if it has as many.
#[tactic(auto, using(crate::proofs::Numbered::lent))]
fn kind_at(rows: &[Row; 50], place: u8) -> Option<Kind>
    requires { IsTable rows.now }
    ensures { result ≡ slice_get kinds place }
{
    Some(rows.get(usize::from(place))?.0)
}

// The row of a kind in a table.
#[tactic(auto, using(crate::proofs::Numbered::row_at))]
fn row_of(rows: &'static [Row; 50], kind: Kind) -> &'static Row
    requires { IsTable rows.now }
    ensures { IsRow kind result.now }
{
    &rows[usize::from(kind.number()) - 1]
}
