// The refusals. specs/Refusals.antt has the number of each.
ghost use Rattle.std.specs.Prelude.{◌≡◌, Some};
ghost use Rattle.records.specs.declared.refusal.RecordError.TheVariants.{UnknownKind, NoSuchRegister};
ghost use Rattle.records.specs.Refusals.{record_number, decode_number, decode_message, encode_number};

use fields::NoSuchRegister;
use opcodes::UnknownKind;
use std::fmt;

// Why no record is made.
#[derive(Clone, Copy, PartialEq, Eq, Debug)]
pub enum RecordError {
    UnknownKind = 24,
    NoSuchRegister = 51,
    UnusedField = 55,
    OutOfRange = 53,
    OddOffset = 54,
}

// Why bytes are not decoded.
#[derive(Clone, Copy, PartialEq, Eq, Debug)]
pub enum DecodeError {
    Empty = 21,
    CutShort = 22,
    Undefined = 23,
}

// Why a record is not encoded.
#[derive(Clone, Copy, PartialEq, Eq, Debug)]
pub enum EncodeError {
    NoRoom = 61,
}

// Each `From` by hand: a derived one has no contract, and callers are told which case it makes.
impl From<UnknownKind> for RecordError {
    ghost from_gives = { λ _ e. e ≡ UnknownKind };

    fn from(_: UnknownKind) -> RecordError {
        RecordError::UnknownKind
    }
}

impl From<NoSuchRegister> for RecordError {
    ghost from_gives = { λ _ e. e ≡ NoSuchRegister };

    fn from(_: NoSuchRegister) -> RecordError {
        RecordError::NoSuchRegister
    }
}

// Each refusal has its `number` by a cast of its own: a trait for the three would spare no line, and be one more name to import.
impl RecordError {
    pub fn number(self) -> u8
        ensures { result ≡ record_number self }
    {
        self as u8
    }
}

impl DecodeError {
    pub fn number(self) -> u8
        ensures { result ≡ decode_number self }
    {
        self as u8
    }

    // What it means, in words: a static text, for callers with nothing to write to.
    pub fn message(self) -> &'static str
        ensures { result.now ≡ decode_message self }
    {
        match self {
            DecodeError::Empty => "no instruction",
            DecodeError::CutShort => "instruction cut short",
            DecodeError::Undefined => "undefined instruction",
        }
    }
}

impl fmt::Display for DecodeError {
    ghost output = { λ e. Some (decode_message e) };

    fn fmt<W: fmt::Write>(&self, f: &mut fmt::Formatter<W>) -> fmt::Result {
        f.write_str(self.message())
    }
}

impl EncodeError {
    pub fn number(self) -> u8
        ensures { result ≡ encode_number self }
    {
        self as u8
    }
}
