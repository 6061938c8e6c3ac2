// Decoding and encoding.
ghost use Rattle.std.specs.Prelude.{◌≡◌, Ok, Err, MatchResult};
ghost use Rattle.std.specs.Option.{option_map};
ghost use Rattle.records.specs.Codec.{held, held_in, gives, decoded, encoded, laid_answer, laid_over};
ghost use Rattle.records.specs.Images.{encoding, image_bytes};
ghost use Rattle.records.specs.Records.{meaning, outcome};

use crate::image::{Image, split};
use crate::operands::Operands;
use crate::record::Record;
use crate::refusal::{DecodeError, EncodeError};
use opcodes::lookup;

fn held(low: u8, high: u8, top: u8) -> Option<Record>
    ensures { option_map meaning result ≡ held low high top }
{
    let kind = lookup(low)?;
    let operands = Operands::read(kind.format(), low, high, top)?;
    Some(Record { kind, operands })
}

impl Image {
    // The record that the bytes hold, if they are defined.
    pub(crate) fn record(self) -> Option<Record>
        ensures { option_map meaning result ≡ held_in (encoding self) }
    {
        match self {
            Image::Two(low, high) => held(low, high, 0),
            Image::Three(low, high, top) => held(low, high, top),
        }
    }
}

// The first instruction of a byte string, and the bytes after it.
#[tactic(auto, unfolding(crate::specs::Codec::decoded))]
pub fn decode(bytes: &[u8]) -> Result<(Record, &[u8]), DecodeError>
    ensures { MatchResult result (λ p. decoded bytes.now ≡ gives (Ok (meaning p.0)) p.1.now) (λ e. decoded bytes.now ≡ gives (Err e) bytes.now) }
{
    let (image, rest) = split(bytes)?;
    let record = image.record().ok_or(DecodeError::Undefined)?;
    Ok((record, rest))
}

// Lays bytes at the start of a buffer, and says how many.
fn lay<const N: usize>(bytes: [u8; N], buffer: &mut [u8]) -> Result<usize, EncodeError>
    ensures answer { result ≡ laid_answer bytes.entry buffer.old }
    ensures after { buffer.new ≡ laid_over bytes.entry buffer.old }
{
    let front = buffer.first_chunk_mut().ok_or(EncodeError::NoRoom)?;
    *front = bytes;
    Ok(N)
}

impl Record {
    // Lays the two or three bytes at the start of a buffer, and says how many.
    pub fn encode(self, buffer: &mut [u8]) -> Result<usize, EncodeError>
        ensures answer { result ≡ laid_answer (encoded (meaning self)) buffer.old }
        ensures after { buffer.new ≡ laid_over (encoded (meaning self)) buffer.old }
    {
        match self.operands.write(self.kind) {
            Image::Two(low, high) => lay([low, high], buffer),
            Image::Three(low, high, top) => lay([low, high, top], buffer),
        }
    }
}
