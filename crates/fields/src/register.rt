// The number of one of the sixteen registers.
ghost use Rattle.std.specs.Prelude.{◌≡◌, ◌/◌, ◌%◌, ◌<◌, ◌≤◌, Some, MatchResult};
ghost use Rattle.fields.specs.Texts.{register_text};

use std::fmt;

#[derive(Clone, Copy, PartialEq, Eq, Debug)]
pub struct RegisterNumber {
    number: u8,
    ghost small: { number < 16 },
}

// A number that no register has.
#[derive(Clone, Copy, PartialEq, Eq, Debug)]
pub struct NoSuchRegister;

// The register with a number, if it is at most 15.
impl TryFrom<u8> for RegisterNumber {
    type Error = NoSuchRegister;

    ghost try_from_gives = { λ n r. MatchResult r (λ x. x.number ≡ n) (λ _. 16 ≤ n) };

    fn try_from(number: u8) -> Result<RegisterNumber, NoSuchRegister> {
        if number > 15 {
            return Err(NoSuchRegister);
        }
        Ok(RegisterNumber { number })
    }
}

impl RegisterNumber {
    // 0 to 15. The field of this one type, as an accessor.
    pub fn number(self) -> u8
        ensures is { result ≡ self.number }
        ensures small { result < 16 }
    {
        self.number
    }

    // x0, which also stands where a record has no register.
    pub fn zero() -> RegisterNumber
        ensures { result.number ≡ 0 }
    {
        RegisterNumber { number: 0 }
    }

    // The register in the low four bits of a byte.
    pub fn in_low_nibble(byte: u8) -> RegisterNumber
        ensures { result.number ≡ byte % 16 }
    {
        RegisterNumber { number: byte % 16 }
    }

    // The register in the high four bits of a byte.
    pub fn in_high_nibble(byte: u8) -> RegisterNumber
        ensures { result.number ≡ byte / 16 }
    {
        RegisterNumber { number: byte / 16 }
    }
}

// x and the number.
impl fmt::Display for RegisterNumber {
    ghost output = { λ x. Some (register_text x.number) };

    fn fmt<W: fmt::Write>(&self, f: &mut fmt::Formatter<W>) -> fmt::Result {
        let number = self.number();
        write!(f, "x{number}")
    }
}
