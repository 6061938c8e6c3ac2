// A row of cells none of which is protected. At most the first 65,536 of them can be addressed. Functions and not a type, since one store has its
// cells lent and the other holds them.
ghost use Rattle.std.specs.Prelude.{◌≡◌, length};
ghost use Rattle.memory.specs.Memory.{memory_of, looked, asked, write_answer, written};
ghost use Rattle.stores.specs.Cut.{cut, rest};
ghost use Rattle.stores.specs.Protection.{nothing};

use memory::{Cell, MOST_CELLS, StoreFault};

// The cells that can be addressed.
#[tactic(auto, using(crate::proofs::Cuts::cut_taken))]
fn addressed(cells: &[Cell]) -> &[Cell]
    ensures { result.now ≡ cut cells.now }
{
    &cells[..cells.len().min(MOST_CELLS as usize)]
}

#[tactic(auto, using(crate::proofs::Cuts::cuts))]
pub(crate) fn size(cells: &[Cell]) -> u32
    ensures { result ≡ length (cut cells.now) }
{
    addressed(cells).len() as u32
}

pub(crate) fn look(cells: &[Cell], address: u32) -> Result<Cell, StoreFault>
    ensures { result ≡ looked (cut cells.now) address }
{
    addressed(cells)
        .get(address as usize)
        .copied()
        .ok_or(StoreFault::Outside(address))
}

pub(crate) fn protected(cells: &[Cell], address: u32) -> Result<bool, StoreFault>
    ensures { result ≡ asked (memory_of (cut cells.now) nothing) address }
{
    look(cells, address).map(|_| false)
}

#[tactic(auto, using(crate::proofs::Cuts::cuts))]
pub(crate) fn write(cells: &mut [Cell], address: u32, cell: Cell) -> Result<(), StoreFault>
    ensures answer { result ≡ write_answer (memory_of (cut cells.old) nothing) address }
    ensures memory { memory_of (cut cells.new) nothing ≡ written (memory_of (cut cells.old) nothing) address cell }
    ensures length { length cells.new ≡ length cells.old }
    ensures rest { rest cells.new ≡ rest cells.old }
{
    // By an index: no proof knows what a write through the `get_mut` of a slice leaves there.
    if address < size(cells) {
        cells[address as usize] = cell;
        Ok(())
    } else {
        Err(StoreFault::Outside(address))
    }
}
