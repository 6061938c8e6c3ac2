// What a caller can rely on with any store and any labelling, and a labelling of one's own.
#![tactic(auto)]

mod apart;
mod callers;
mod lenders;
mod meanings;
mod roster;
mod sight;
mod tests;

pub use apart::write_then_part;
pub use callers::{block_then_look, look_elsewhere, write_then_look};
pub use lenders::lend_flat;
pub use meanings::{echo_look, map_look, map_protected, map_write, small_look};
pub use roster::Roster;
pub use sight::{ranks_and_boats_see_join, sees_join, sees_public};
