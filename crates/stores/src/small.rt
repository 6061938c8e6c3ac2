#![tactic(auto, using(crate::proofs::Cuts::uncut))]

ghost use Rattle.std.specs.Prelude.{◌≡◌, length, replicate, refl};
ghost use Rattle.memory.specs.Memory.{memory_of, blank};
ghost use Rattle.memory.specs.Trimmed.{memory_trimmed};
ghost use Rattle.stores.specs.Cut.{small_bounded};
ghost use Rattle.stores.specs.Protection.{nothing};

use crate::row;
use memory::{Cell, ReadingEnd, Store, StoreFault};

// How many cells a small store has.
const CELLS: usize = 256;

// 256 cells of its own. None is protected.
#[derive(Drop)]
pub struct SmallStore {
    cells: [Cell; CELLS],
    ghost sized: { length cells ≡ 256 },
}

impl SmallStore {
    pub fn new() -> SmallStore
        ensures { result.cells ≡ replicate 256 blank }
    {
        SmallStore {
            cells: [Cell { value: 0, label: 0 }; CELLS],
        }
    }
}

impl ReadingEnd for SmallStore {
    ghost cells = { λ s. s.cells };

    ghost bounded = { λ s. small_bounded s.cells s.sized };

    fn size(&self) -> u32 {
        row::size(&self.cells)
    }

    fn look(&self, address: u32) -> Result<Cell, StoreFault> {
        row::look(&self.cells, address)
    }
}

impl Store for SmallStore {
    ghost memory = { λ s. memory_of s.cells nothing };

    ghost Frame = { Unit {0} };

    ghost frame = { λ _. tt };

    fn protected(&self, address: u32) -> Result<bool, StoreFault> {
        row::protected(&self.cells, address)
    }

    fn write(&mut self, address: u32, cell: Cell) -> Result<(), StoreFault> {
        row::write(&mut self.cells, address, cell)
    }

    ghost same_cells = { λ s. refl };

    ghost trimmed = { λ s. memory_trimmed s.cells nothing };
}
