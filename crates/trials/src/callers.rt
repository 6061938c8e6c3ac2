ghost use Rattle.std.specs.Prelude.{◌≡◌, length, ◌≢◌};
ghost use Rattle.memory.specs.Blocks.{block_written};
ghost use Rattle.memory.specs.Memory.{looked, write_answer, written};
ghost use Rattle.trials.specs.Looks.{then_looked, block_looked};

use stores::{Block, Cell, ReadingEnd, Store, StoreFault, write_block};

// A write and a look at the same address: the cell that was written, or the refusal of the write.
pub fn write_then_look<S: Store>(
    store: &mut S,
    address: u32,
    cell: Cell,
) -> Result<Cell, StoreFault>
    ensures answer { result ≡ then_looked (write_answer (S.memory store.old) address) cell }
    ensures memory { S.memory store.new ≡ written (S.memory store.old) address cell }
    ensures frame { S.frame store.new ≡ S.frame store.old }
{
    store.write(address, cell)?;
    store.look(address)
}

// A write, refused or not, and a look: at another address it gives what was there before. Size and protection are as they were.
pub fn look_elsewhere<S: Store>(
    store: &mut S,
    address: u32,
    cell: Cell,
    other: u32,
) -> Result<Cell, StoreFault>
    ensures answer { result ≡ looked (written (S.memory store.old) address cell).cells other }
    ensures elsewhere { (other ≢ address) → result ≡ looked (S.cells store.old) other }
    ensures size { length (S.cells store.new) ≡ length (S.cells store.old) }
    ensures protection { (S.memory store.new).protected ≡ (S.memory store.old).protected }
    ensures memory { S.memory store.new ≡ written (S.memory store.old) address cell }
    ensures frame { S.frame store.new ≡ S.frame store.old }
{
    let _ = store.write(address, cell);
    store.look(other)
}

// A block, refused or not, and a look anywhere: the block's byte where it was put, and what was there before where it was not.
#[tactic(auto, using(crate::proofs::Looks::looked_after))]
pub fn block_then_look<S: Store>(
    store: &mut S,
    block: Block<'_>,
    place: u32,
) -> Result<Cell, StoreFault>
    ensures answer { result ≡ block_looked (S.memory store.old) block.entry.address block.entry.bytes.now block.entry.label place }
    ensures memory { S.memory store.new ≡ block_written (S.memory store.old) block.entry.address block.entry.bytes.now block.entry.label }
    ensures frame { S.frame store.new ≡ S.frame store.old }
{
    let _ = write_block(store, block);
    store.look(place)
}
