// The listing of a filter: a line for each instruction, with its address, its bytes and its text.
#![tactic(auto)]

ghost use Rattle.std.specs.Prelude.{◌≡◌, ◌<◌, Some, IfOk, string_bytes};
ghost use Rattle.columns.specs.Columns.{padded};
ghost use Rattle.records.specs.Records.{meaning};
ghost use Rattle.disassembly.specs.Listings.{hex_digit, hexes, line, refusal_line, listing, ShowsWhatWasEncoded};

use columns::justify;
use isa::{DecodeError, Record, decode};
use std::alloc::{AllocError, Global};
use std::{fmt, str};

// The most bytes that a filter has.
pub const LIMIT: usize = 65_536;

// The upper-case hexadecimal digit of a number below 16.
fn hex_digit(n: u8) -> u8
    requires { n < 16 }
    ensures { result ≡ hex_digit n }
{
    if n < 10 { b'0' + n } else { b'A' + (n - 10) }
}

// Each byte as a blank and two hexadecimal digits.
#[derive(Clone, Copy)]
pub struct Hex<'a>(pub &'a [u8]);

impl fmt::Display for Hex<'_> {
    ghost output = { λ x. Some (hexes x.0.now) };

    fn fmt<W: fmt::Write>(&self, f: &mut fmt::Formatter<W>) -> fmt::Result {
        for &b in self.0 {
            let digits = [b' ', hex_digit(b / 16), hex_digit(b % 16)];
            // With no test for UTF-8: that a blank and digits are a text is proved.
            f.write_str(unsafe { str::from_utf8_unchecked(&digits) })?;
        }
        Ok(())
    }
}

// An address, right-justified in five columns.
#[derive(Clone, Copy)]
struct Address(usize);

impl fmt::Display for Address {
    ghost output = { λ x. Some (padded 5 x.0) };

    #[tactic(auto, using(crate::proofs::Shown::no_blanks))]
    fn fmt<W: fmt::Write>(&self, f: &mut fmt::Formatter<W>) -> fmt::Result {
        let Address(at) = *self;
        let mut field = [0; 5];
        match justify(&mut field, at as u64) {
            // With no test for UTF-8: that blanks and figures are a text is proved.
            Ok(()) => f.write_str(unsafe { str::from_utf8_unchecked(&field) }),
            // more figures than columns
            Err(_) => write!(f, "{at}"),
        }
    }
}

// The line of an instruction.
#[derive(Clone, Copy)]
struct Line<'a> {
    at: usize,
    bytes: &'a [u8],
    instruction: Record,
}

impl fmt::Display for Line<'_> {
    ghost output = { λ x. Some (line x.at x.bytes.now (meaning x.instruction)) };

    #[tactic(auto, unfolding(crate::specs::Listings::line))]
    fn fmt<W: fmt::Write>(&self, f: &mut fmt::Formatter<W>) -> fmt::Result {
        let Line {
            at,
            bytes,
            instruction,
        } = *self;
        // blanks in the place of a third byte
        let gap = if bytes.len() == 2 { "   " } else { "" };
        writeln!(f, "{} {}{gap}  {instruction}", Address(at), Hex(bytes))
    }
}

// The line of a refusal.
#[derive(Clone, Copy)]
struct RefusalLine {
    at: usize,
    refusal: DecodeError,
}

impl fmt::Display for RefusalLine {
    ghost output = { λ x. Some (refusal_line x.at x.refusal) };

    #[tactic(auto, unfolding(crate::specs::Listings::refusal_line))]
    fn fmt<W: fmt::Write>(&self, f: &mut fmt::Formatter<W>) -> fmt::Result {
        let RefusalLine { at, refusal } = *self;
        writeln!(f, "{}  {} {refusal}", Address(at), refusal.number())
    }
}

// The listing of a filter. The law: instructions that were encoded are listed as just these instructions.
#[tactic(auto, using(crate::proofs::Encoded::shown), unfolding(crate::specs::Listings::listing))]
pub fn listing(heap: Global, filter: &[u8]) -> Result<String, AllocError>
    ensures bytes { IfOk result (λ text. string_bytes text ≡ listing filter.now) }
    ensures law { ShowsWhatWasEncoded }
{
    if filter.len() > LIMIT {
        return String::from_str(heap, "a filter has at most 65536 bytes\n");
    }
    let mut out = String::new(heap);
    let mut rest = filter;
    let mut count = 0usize;
    // A loop and not an iterator over the instructions: what ends them, a refusal or nothing more, is listed too.
    let refusal = loop {
        match decode(rest) {
            Ok((instruction, after)) => {
                let at = filter.len() - rest.len();
                let bytes = &rest[..rest.len() - after.len()];
                write!(
                    out,
                    "{}",
                    Line {
                        at,
                        bytes,
                        instruction
                    }
                )?;
                rest = after;
                count += 1;
            }
            Err(refusal) => break refusal,
        }
    };
    if !rest.is_empty() {
        let at = filter.len() - rest.len();
        write!(out, "{}", RefusalLine { at, refusal })?;
    }
    writeln!(out, "instructions: {count}")?;
    Ok(out)
}

#[cfg(test)]
mod tests {
    use super::*;
    use std::test::Fail;

    #[test]
    fn the_longest_filter_is_listed(rt: HostRuntime) -> Result<(), Fail> {
        let filter = vec![in rt.alloc(); 0u8; LIMIT]?;
        let text = listing(rt.alloc(), &filter)?;
        let nops = LIMIT / 2;
        assert!(rt;
            text.len() == nops * b"    0  00 00     nop\n".len() + b"instructions: 32768\n".len()
        );
        Ok(())
    }

    #[test]
    fn a_longer_filter_is_refused(rt: HostRuntime) -> Result<(), Fail> {
        let filter = vec![in rt.alloc(); 0u8; LIMIT + 1]?;
        let text = listing(rt.alloc(), &filter)?;
        assert!(rt; text.as_bytes() == b"a filter has at most 65536 bytes\n".as_slice());
        Ok(())
    }
}
