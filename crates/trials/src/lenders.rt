ghost use Rattle.std.specs.Prelude.{◌≡◌, length};
ghost use Rattle.memory.specs.Blocks.{block_answer, block_written};
ghost use Rattle.memory.specs.Memory.{memory_of};
ghost use Rattle.stores.specs.Cut.{cut, rest};
ghost use Rattle.stores.specs.Protection.{nothing};

use stores::{Block, Cell, FlatStore, StoreFault, write_block};

// A block put into an array that is lent to a flat store: the lender knows its cells again, those past the cut too.
pub fn lend_flat(cells: &mut [Cell], block: Block<'_>) -> Result<(), StoreFault>
    ensures answer { result ≡ block_answer (memory_of (cut cells.old) nothing) block.entry.address (length block.entry.bytes.now) }
    ensures front { memory_of (cut cells.new) nothing ≡ block_written (memory_of (cut cells.old) nothing) block.entry.address block.entry.bytes.now block.entry.label }
    ensures back { rest cells.new ≡ rest cells.old }
{
    let mut store = FlatStore::new(cells);
    write_block(&mut store, block)
}
