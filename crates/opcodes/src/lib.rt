// The kinds of CAHPv3 instructions and the opcode table.
#![tactic(auto)]

mod format;
mod kind;
mod law;
mod table;

pub use format::Format;
pub use kind::{Kind, UnknownKind};
pub use law::table_keeps_its_rule;
pub use table::lookup;
