// Records of CAHPv3 instructions: making, decoding and encoding them.
#![tactic(auto)]

mod image;
mod layout;
mod numbers;
mod operands;
mod record;
mod refusal;
mod shape;

pub use record::Record;
pub use record::codec::decode;
pub use refusal::{DecodeError, EncodeError, RecordError};
