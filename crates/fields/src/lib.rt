// The fields of an instruction: register numbers, and numbers in the bits of its bytes.
#![tactic(auto)]

mod bits;
mod register;

pub use bits::{eleven_bits, even_offset, is_long, low_byte, packed, six_bits, ten_bits};
pub use register::{NoSuchRegister, RegisterNumber};
