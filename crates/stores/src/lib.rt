// Stores and reading ends, with what a memory is under the same name.
#![tactic(auto)]

mod echo;
mod flat;
mod joint;
mod row;
mod small;
mod split;

pub use echo::EchoLine;
pub use flat::FlatStore;
pub use memory::{Block, Cell, MOST_CELLS, ReadingEnd, Store, StoreFault, write_block};
pub use small::SmallStore;
pub use split::SplitMap;
