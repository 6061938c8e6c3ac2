// Why bytes are not decoded and encoded again.
ghost use Rattle.std.specs.Prelude.{◌≡◌};
ghost use Rattle.isa.specs.declared.refusal.CodecError.TheVariants.{Decode, Encode};
ghost use Rattle.isa.specs.Refusals.{codec_number};

use records::{DecodeError, EncodeError};

#[derive(Clone, Copy, PartialEq, Eq, Debug)]
pub enum CodecError {
    Decode(DecodeError),
    Encode(EncodeError),
}

// Each `From` by hand: a derived one has no contract, and callers are told which case it makes.
impl From<DecodeError> for CodecError {
    ghost from_gives = { λ e r. r ≡ Decode e };

    fn from(e: DecodeError) -> CodecError {
        CodecError::Decode(e)
    }
}

impl From<EncodeError> for CodecError {
    ghost from_gives = { λ e r. r ≡ Encode e };

    fn from(e: EncodeError) -> CodecError {
        CodecError::Encode(e)
    }
}

impl CodecError {
    // By a match, since the cases hold refusals and no cast gives their numbers.
    pub fn number(self) -> u8
        ensures { result ≡ codec_number self }
    {
        match self {
            CodecError::Decode(e) => e.number(),
            CodecError::Encode(e) => e.number(),
        }
    }
}
