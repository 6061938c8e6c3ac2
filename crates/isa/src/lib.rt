// The CAHPv3 instruction set: kinds, the opcode table, records, their bytes and their text.
#![tactic(auto)]

mod examples;
mod refusal;
mod round_trip;

pub use examples::decoding_examples_hold;
pub use fields::{NoSuchRegister, RegisterNumber};
pub use opcodes::{Format, Kind, UnknownKind, lookup};
pub use records::{DecodeError, EncodeError, Record, RecordError, decode};
pub use refusal::CodecError;
pub use round_trip::{decode_encoded, encode_decoded};

#[cfg(test)]
mod tests {
    use super::*;
    use std::alloc::Global;
    use std::process::Abort;
    use std::test::Fail;

    fn text(heap: Global, kind: u8, a: u8, b: u8, c: u8, imm: i32) -> Result<String, Fail> {
        let record = Record::new(kind, a, b, c, imm)?;
        Ok(format!(in heap; "{record}")?)
    }

    #[test]
    fn text_is_as_typed(rt: HostRuntime) -> Result<(), Fail> {
        let heap = rt.alloc();
        assert!(rt; text(heap, 1, 1, 2, 3, 0)?.as_str() == "add x1, x2, x3");
        assert!(rt; text(heap, 23, 8, 9, 0, -2)?.as_str() == "lw x8, -2(x9)");
        assert!(rt; text(heap, 48, 8, 0, 0, 126)?.as_str() == "lwsp x8, 126(x1)");
        assert!(rt; text(heap, 50, 0, 0, 0, 0)?.as_str() == "nop");
        Ok(())
    }

    #[test]
    fn the_table_names_130_first_bytes(rt: HostRuntime) {
        let named = (0..=255u8).filter(|low| lookup(*low).is_some()).count();
        assert_eq!(rt; named, 130);
    }

    // Whether a buffer has the first bytes of a string, and is the rest of it turned, as it was before.
    fn laid(bytes: [u8; 3], buffer: [u8; 3], count: usize) -> bool {
        bytes.iter().zip(buffer.iter()).enumerate().all(|(i, (byte, after))| *after
            == if i < count { *byte } else { !*byte })
    }

    // How many bytes of a string are decoded and encoded again, if any, and whether the buffer is as it should be.
    fn copied(rt: &impl Abort, bytes: [u8; 3]) -> Option<usize> {
        let mut buffer = bytes.map(|byte| !byte);
        let copied = match encode_decoded(&bytes, &mut buffer) {
            Ok(count) => Some(count),
            Err(refusal) => {
                assert!(rt; refusal.number() == 23);
                None
            }
        };
        assert!(rt; laid(bytes, buffer, copied.unwrap_or(0)));
        copied
    }

    // How many first and second bytes begin a defined instruction, with a third byte given; each is encoded as it was.
    fn defined(rt: &impl Abort, top: u8) -> usize {
        (0..=255u8)
            .map(|low| {
                (0..=255u8)
                    .filter(|high| copied(rt, [low, *high, top]).is_some())
                    .count()
            })
            .fold(0, |sum: usize, count| sum.saturating_add(count))
    }

    // Kinds times spare bits of the first byte times second bytes, format by format.
    const TWO_BYTES: usize = 9 * 256
        + 4 * 4 * 256
        + 3 * 256
        + 2 * 16
        + 2 * 8 * 256
        + 2 * 4 * 256
        + 1;

    const THREE_BYTES: usize = 4 * 4 * 256 + 4 * 16 + 6 * 4 * 256 + 5 * 4 * 256;

    const SMALL_THIRD: usize = 8 * 256 + 3 * 256;

    #[test]
    fn every_first_and_second_byte_is_tried(rt: HostRuntime) {
        assert_eq!(rt; defined(&rt, 0), TWO_BYTES + THREE_BYTES + SMALL_THIRD);
        assert_eq!(rt; defined(&rt, 15), TWO_BYTES + THREE_BYTES + SMALL_THIRD);
        assert_eq!(rt; defined(&rt, 16), TWO_BYTES + THREE_BYTES);
        assert_eq!(rt; defined(&rt, 255), TWO_BYTES + THREE_BYTES);
    }
}
