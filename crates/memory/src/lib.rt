// What a memory is: cells, the ends that are read, the stores that are also written, and blocks of bytes put into them.
#![tactic(auto)]

mod block;
mod cell;
mod ends;
mod fault;

pub use block::{Block, write_block};
pub use cell::Cell;
pub use ends::{MOST_CELLS, ReadingEnd, Store};
pub use fault::StoreFault;
