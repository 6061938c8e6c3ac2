ghost use Rattle.std.specs.Prelude.{◌≡◌, ℕ, ◌≤◌, List, length};
ghost use Rattle.memory.specs.declared.cell.Cell.{Cell};
ghost use Rattle.memory.specs.Memory.{Memory, Trimmed, most_cells, looked, asked, write_answer, written};

use crate::{Cell, StoreFault};

// The largest size.
pub const MOST_CELLS: u32 = 65_536;

// A list of cells, at most 65,536, that can be looked at.
pub trait ReadingEnd {
    ghost cells: { Self → List Cell };

    ghost bounded: { (e : Self) → length (cells e) ≤ most_cells };

    // How many cells there are.
    fn size(&self) -> u32
        ensures { result ≡ length (cells self.now) };

    // The cell at an address; 41 outside the size.
    fn look(&self, address: u32) -> Result<Cell, StoreFault>
        ensures { result ≡ looked (cells self.now) address };
}

// A reading end whose cells can be set, save those at protected addresses.
pub trait Store: ReadingEnd {
    // The memory that it stands for: the cells that are looked at, and which addresses are protected.
    ghost memory: { Self → Memory };

    // What else a store stands on. No write changes it.
    ghost Frame: { Type 0 };

    ghost frame: { Self → Frame };

    // Whether an address is protected; 41 outside the size.
    fn protected(&self, address: u32) -> Result<bool, StoreFault>
        ensures { result ≡ asked (memory self.now) address };

    // Sets one cell; 41 outside the size, then 42 at a protected address. A refused write changes nothing.
    fn write(&mut self, address: u32, cell: Cell) -> Result<(), StoreFault>
        ensures answer { result ≡ write_answer (memory self.old) address }
        ensures memory { memory self.new ≡ written (memory self.old) address cell }
        ensures frame { frame self.new ≡ frame self.old };

    ghost same_cells: { (s : Self) → (memory s).cells ≡ Self.ReadingEnd.cells s };

    ghost trimmed: { (s : Self) → Trimmed (memory s) };
}
