// Tries the instruction set on a table of cases, and prints what each gives.
#![tactic(auto)]

use disassembly::{Hex, listing};
use isa::{Record, decode, decode_encoded, encode_decoded, lookup};
use std::io::Write;
use std::{fmt, io};

// Sixteen entries of the opcode table, those with the same high digit.
#[derive(Clone, Copy)]
struct Row(u8);

impl fmt::Display for Row {
    fn fmt<W: fmt::Write>(&self, f: &mut fmt::Formatter<W>) -> fmt::Result {
        let high = self.0;
        write!(f, "{high:X}:")?;
        for low in 0..16u8 {
            let name = lookup((high % 16) * 16 + low).map_or("-", |kind| kind.name());
            write!(f, " {name}")?;
        }
        Ok(())
    }
}

// A record made of a kind's number, three registers and an immediate, and its bytes in a buffer of four.
#[derive(Clone, Copy)]
struct Making(u8, u8, u8, u8, i32);

impl fmt::Display for Making {
    fn fmt<W: fmt::Write>(&self, f: &mut fmt::Formatter<W>) -> fmt::Result {
        let Making(kind, a, b, c, imm) = *self;
        write!(f, "make {kind} {a} {b} {c} {imm}: ")?;
        let mut buffer = [0xEE; 4];
        let made = Record::new(kind, a, b, c, imm).map_err(|refusal| refusal.number());
        let again = made.and_then(|record| {
            decode_encoded(record, &mut buffer).map_err(|refusal| refusal.number())
        });
        match again {
            Ok(record) => write!(f, "{record} ={}", Hex(&buffer)),
            Err(number) => write!(f, "{number}"),
        }
    }
}

// The first instruction of a byte string, and its bytes in a buffer of four.
#[derive(Clone, Copy)]
struct Decoding<'a>(&'a [u8]);

impl fmt::Display for Decoding<'_> {
    fn fmt<W: fmt::Write>(&self, f: &mut fmt::Formatter<W>) -> fmt::Result {
        write!(f, "decode{}: ", Hex(self.0))?;
        let mut buffer = [0xEE; 4];
        match encode_decoded(self.0, &mut buffer) {
            Ok(count) => {
                if let Ok((record, _)) = decode(self.0) {
                    write!(f, "{record}, ")?;
                }
                let all = self.0.len();
                write!(f, "{count} of {all} bytes; again{}", Hex(&buffer))
            }
            Err(refusal) => write!(f, "{}", refusal.number()),
        }
    }
}

// What encoding a record answers in buffers of none to three bytes, with the three bytes afterwards.
#[derive(Clone, Copy)]
struct Encoding(Record);

impl fmt::Display for Encoding {
    fn fmt<W: fmt::Write>(&self, f: &mut fmt::Formatter<W>) -> fmt::Result {
        let record = self.0;
        write!(f, "encode {record} into 0 to 3 bytes:")?;
        for room in 0..4usize {
            let mut buffer = [0xEE; 3];
            let answer = record.encode(&mut buffer[..room]);
            let number = answer.unwrap_or_else(|refusal| usize::from(refusal.number()));
            let [x, y, z] = buffer;
            write!(f, " {number} ( {x:02X} {y:02X} {z:02X} )")?;
        }
        Ok(())
    }
}

const MAKINGS: &[Making] = &[
    Making(1, 15, 14, 13, 0),
    Making(1, 15, 14, 13, 1),
    Making(14, 15, 14, 0, -1),
    Making(14, 15, 14, 0, 0),
    Making(14, 15, 14, 0, 15),
    Making(14, 15, 14, 0, 16),
    Making(9, 15, 14, 0, -513),
    Making(9, 15, 14, 0, -512),
    Making(9, 15, 14, 0, 511),
    Making(9, 15, 14, 0, 512),
    Making(13, 15, 0, 0, -513),
    Making(13, 15, 0, 0, -512),
    Making(13, 15, 0, 0, 511),
    Making(13, 15, 0, 0, 512),
    Making(17, 15, 14, 0, -513),
    Making(17, 15, 14, 0, -512),
    Making(17, 15, 14, 0, 511),
    Making(17, 15, 14, 0, 512),
    Making(23, 15, 14, 0, -513),
    Making(23, 15, 14, 0, -512),
    Making(23, 15, 14, 0, 511),
    Making(23, 15, 14, 0, 512),
    Making(28, 15, 14, 0, 0),
    Making(28, 15, 14, 0, 1),
    Making(37, 15, 0, 0, -33),
    Making(37, 15, 0, 0, -32),
    Making(37, 15, 0, 0, 31),
    Making(37, 15, 0, 0, 32),
    Making(41, 15, 0, 0, -1),
    Making(41, 15, 0, 0, 0),
    Making(41, 15, 0, 0, 15),
    Making(41, 15, 0, 0, 16),
    Making(44, 15, 0, 0, 0),
    Making(44, 15, 0, 0, 1),
    Making(46, 0, 0, 0, -1025),
    Making(46, 0, 0, 0, -1024),
    Making(46, 0, 0, 0, 1023),
    Making(46, 0, 0, 0, 1024),
    Making(48, 15, 0, 0, -1),
    Making(48, 15, 0, 0, 0),
    Making(48, 15, 0, 0, 126),
    Making(48, 15, 0, 0, 127),
    Making(50, 0, 0, 0, 0),
    Making(50, 0, 0, 0, 1),
    Making(48, 8, 0, 0, 125),
    Making(48, 8, 0, 0, 127),
    Making(48, 8, 0, 0, -2),
    Making(48, 8, 0, 0, 2),
    Making(0, 16, 16, 16, 99999),
    Making(51, 0, 0, 0, 0),
    Making(255, 0, 0, 0, 0),
    Making(1, 16, 0, 0, 0),
    Making(1, 0, 16, 0, 0),
    Making(1, 0, 0, 16, 0),
    Making(45, 1, 16, 0, 0),
    Making(50, 0, 0, 255, 1),
    Making(45, 1, 1, 0, 0),
    Making(50, 1, 0, 0, 0),
    Making(48, 8, 1, 0, 125),
    Making(13, 8, 1, 0, 600),
    Making(1, 1, 2, 3, 65536),
    Making(9, 1, 2, 0, 65535),
    Making(9, 1, 2, 0, 2147483647),
    Making(9, 1, 2, 0, -2147483648),
];

const STRINGS: &[&[u8]] = &[
    &[0x00, 0x00],
    &[0x34, 0x38],
    &[0xC2, 0xF8],
    &[0xEF, 0x89, 0xFE],
    &[0x01, 0x21, 0x03],
    &[0xD4, 0xF8],
    &[0x01, 0x21, 0x13],
    &[0x07, 0x00, 0x00],
    &[0x40, 0x00],
    &[0x01, 0x21],
    &[],
    &[0x00],
    &[0x07],
    &[0x07, 0x00],
    &[0x40],
    &[0x16, 0x10],
    &[0x06, 0x0F],
    &[0x00, 0x01],
    &[0x35, 0x18, 0x05],
    &[0x35, 0x08, 0x05],
    &[0x2B, 0x00, 0x10],
    &[0x2B, 0x00, 0x0F],
    &[0x34, 0x38, 0xFF],
    &[0x01, 0x21, 0x03, 0x01],
    &[0x0E, 0x80],
    &[0xEE, 0x7F],
];

const FILTERS: &[&[u8]] = &[
    &[],
    &[0x34, 0x38, 0xC2, 0xF8, 0xEF, 0x89, 0xFE],
    &[0x34, 0x38, 0x01],
    &[0x34, 0x38, 0x01, 0x21],
    &[0x34, 0x38, 0x07, 0x00, 0x00],
];

fn main(rt: HostRuntime) -> io::Result<()> {
    for high in 0..16u8 {
        rt.println(Row(high))?;
    }
    for making in MAKINGS {
        rt.println(*making)?;
    }
    for string in STRINGS {
        rt.println(Decoding(*string))?;
    }
    for kind in [1u8, 50] {
        if let Ok(record) = Record::new(kind, 0, 0, 0, 0) {
            rt.println(Encoding(record))?;
        }
    }
    for filter in FILTERS {
        let bytes = Hex(*filter);
        println!(rt; "list{bytes}")?;
        let text = listing(rt.alloc(), *filter)?;
        rt.stdout().write_all(text.as_bytes())?;
    }
    Ok(())
}
