// Decoding undoes encoding, and encoding undoes decoding: the calls that make both.
ghost use Rattle.std.specs.Prelude.{◌≡◌};
ghost use Rattle.records.specs.Codec.{decoded, encoded, laid_over};
ghost use Rattle.isa.specs.Laws.{DecodingUndoesEncoding, EncodingUndoesDecoding};
ghost use Rattle.records.specs.Records.{meaning, outcome};
ghost use Rattle.isa.specs.RoundTrips.{through, copied_answer, copied_over};

use crate::refusal::CodecError;
use records::{EncodeError, Record, decode};

// Encodes a record at the start of a buffer and decodes what then stands there: the record comes back.
#[tactic(auto, using(crate::proofs::Trips::there_and_back))]
pub fn decode_encoded(record: Record, buffer: &mut [u8]) -> Result<Record, EncodeError>
    ensures answer { outcome result ≡ through (meaning «record») buffer.old }
    ensures after { buffer.new ≡ laid_over (encoded (meaning «record»)) buffer.old }
    ensures law { DecodingUndoesEncoding }
{
    record.encode(buffer)?;
    let (again, _) = decode(buffer).unwrap();
    Ok(again)
}

// Decodes the first instruction of a byte string and encodes it at the start of a buffer: the same bytes come back. Says how many.
pub fn encode_decoded(bytes: &[u8], buffer: &mut [u8]) -> Result<usize, CodecError>
    ensures answer { result ≡ copied_answer (decoded bytes.now).answer bytes.now buffer.old }
    ensures after { buffer.new ≡ copied_over (decoded bytes.now).answer bytes.now buffer.old }
    ensures law { EncodingUndoesDecoding }
{
    let (record, _) = decode(bytes)?;
    Ok(record.encode(buffer)?)
}
