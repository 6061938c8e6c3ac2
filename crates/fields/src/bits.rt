// Numbers in the bits of bytes. Quotients and remainders of powers of two are shifts and masks to the machine.
ghost use Rattle.std.specs.Prelude.{◌≡◌, ◌+◌, ◌*◌, ◌/◌, ◌%◌, ◌^◌, ◌<◌, pos, ◌==◌};
ghost use Rattle.fields.specs.Bits.{signed};

// Whether a first byte begins an instruction of three bytes: bit 0 tells.
pub fn is_long(low: u8) -> bool
    ensures { result ≡ (low % 2 == 1) }
{
    low % 2 == 1
}

// A byte of two parts: BITS low bits of one, and above them bits of another. BITS counts modulo 8, as in every shift of a byte.
#[tactic(auto, using(crate::proofs::Parts::fits))]
pub fn packed<const BITS: u32>(above: u8, below: u8) -> u8
    ensures { result ≡ above * 2 ^ (BITS % 8) % 256 + below % 2 ^ (BITS % 8) }
{
    above.wrapping_shl(BITS) + below % 1u8.wrapping_shl(BITS)
}

pub fn low_byte(bits: u16) -> u8
    ensures { result ≡ bits % 256 }
{
    (bits % 256) as u8
}

// The number that raw bits stand for in two's complement, where half is the weight of the sign.
fn sign_extend(bits: u16, half: u16) -> i16
    requires { (bits < half + half) × (half < 16384) }
    ensures { result ≡ signed half bits }
{
    if bits < half {
        bits as i16
    } else {
        bits as i16 - (half + half) as i16
    }
}

// The signed immediates of ten, six and eleven bits, in the bytes that hold them.
pub fn ten_bits(low: u8, top: u8) -> i16
    ensures { result ≡ signed 512 (low / 64 * 256 + top) }
{
    sign_extend(u16::from_le_bytes([top, low / 64]), 512)
}

pub fn six_bits(low: u8, high: u8) -> i16
    ensures { result ≡ signed 32 (low / 64 * 16 + high / 16) }
{
    sign_extend(u16::from(packed::<4>(low / 64, high / 16)), 32)
}

pub fn eleven_bits(low: u8, high: u8) -> i16
    ensures { result ≡ signed 1024 (high * 8 + low / 32) }
{
    sign_extend(u16::from_le_bytes([low, high]) / 32, 1024)
}

// The even offset of seven bits, whose bit 0 is not held.
pub fn even_offset(low: u8, high: u8) -> i16
    ensures { result ≡ pos ((low / 64 * 16 + high / 16) * 2) }
{
    i16::from(packed::<4>(low / 64, high / 16)) * 2
}
