// Labels: how two are joined, and which of them a reader sees.
#![tactic(auto)]

mod boats;
mod labelling;
mod ranks;

pub use boats::Boats;
pub use labelling::Labelling;
pub use ranks::Ranks;
