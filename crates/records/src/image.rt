// The bytes of one instruction.
ghost use Rattle.std.specs.Prelude.{◌≡◌, Ok, Err, MatchResult};
ghost use Rattle.records.specs.Codec.{split, cut};
ghost use Rattle.records.specs.Images.{encoding};

use crate::refusal::DecodeError;
use fields::is_long;

#[derive(Clone, Copy)]
pub(crate) enum Image {
    Two(u8, u8),
    Three(u8, u8, u8),
}

// The bytes of the first instruction of a byte string, and those after it.
pub(crate) fn split(bytes: &[u8]) -> Result<(Image, &[u8]), DecodeError>
    ensures { MatchResult result (λ p. split bytes.now ≡ Ok (cut (encoding p.0) p.1.now)) (λ e. split bytes.now ≡ Err e) }
{
    match bytes {
        [low, high, top, rest @ ..] if is_long(*low) => Ok((Image::Three(*low, *high, *top), rest)),
        [low, high, rest @ ..] if !is_long(*low) => Ok((Image::Two(*low, *high), rest)),
        [] => Err(DecodeError::Empty),
        _ => Err(DecodeError::CutShort),
    }
}
