ghost use Rattle.std.specs.Prelude.{◌≡◌, ℕ, List, refl};
ghost use Rattle.memory.specs.declared.Cell.{Cell};
ghost use Rattle.memory.specs.Memory.{memory_of};
ghost use Rattle.memory.specs.Trimmed.{memory_trimmed};
ghost use Rattle.stores.specs.Cut.{cut, rest, cut_bounded};
ghost use Rattle.stores.specs.Protection.{nothing};

use crate::row;
use memory::{Cell, ReadingEnd, Store, StoreFault};

// The cells of an array that was lent, at most the first 65,536. None is protected.
#[derive(Drop)]
pub struct FlatStore<'a> {
    cells: &'a mut [Cell],
}

impl<'a> FlatStore<'a> {
    pub fn new(cells: &'a mut [Cell]) -> FlatStore<'a>
        ensures cells { result.cells.now ≡ cells.old }
        ensures lender { result.cells.ghost_name ≡ cells.entry.ghost_name }
    {
        FlatStore { cells }
    }
}

impl<'a> ReadingEnd for FlatStore<'a> {
    ghost cells = { λ s. cut s.cells.now };

    ghost bounded = { λ s. cut_bounded s.cells.now };

    fn size(&self) -> u32 {
        row::size(self.cells)
    }

    fn look(&self, address: u32) -> Result<Cell, StoreFault> {
        row::look(self.cells, address)
    }
}

impl<'a> Store for FlatStore<'a> {
    ghost memory = { λ s. memory_of (cut s.cells.now) nothing };

    // The array that was lent, and its cells past the cut.
    ghost Frame = { ℕ × List Cell };

    ghost frame = { λ s. (s.cells.ghost_name, rest s.cells.now) };

    fn protected(&self, address: u32) -> Result<bool, StoreFault> {
        row::protected(self.cells, address)
    }

    fn write(&mut self, address: u32, cell: Cell) -> Result<(), StoreFault> {
        row::write(self.cells, address, cell)
    }

    ghost same_cells = { λ s. refl };

    ghost trimmed = { λ s. memory_trimmed (cut s.cells.now) nothing };
}
