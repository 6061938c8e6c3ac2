// What each store means, as code in another crate finds it. The three for split maps state three contracts, and so are not one function over the call.
ghost use Rattle.std.specs.Prelude.{◌≡◌, replicate};
ghost use Rattle.memory.specs.Memory.{memory_of, blank, looked, asked, write_answer, written};
ghost use Rattle.stores.specs.Cut.{cut};
ghost use Rattle.stores.specs.Echo.{heard};
ghost use Rattle.stores.specs.Joints.{joined};
ghost use Rattle.stores.specs.Protection.{nothing, everything};

use stores::{Cell, EchoLine, ReadingEnd, SmallStore, SplitMap, Store, StoreFault};

// A new small store, written once and looked at.
pub fn small_look(address: u32, cell: Cell, place: u32) -> Result<Cell, StoreFault>
    ensures { result ≡ looked (written (memory_of (replicate 256 blank) nothing) address cell).cells place }
{
    let mut store = SmallStore::new();
    let _ = store.write(address, cell);
    store.look(place)
}

// An echo line, looked at.
pub fn echo_look(samples: &[u16], label: u8, address: u32) -> Result<Cell, StoreFault>
    ensures { result ≡ looked (cut (heard label samples.now)) address }
{
    EchoLine::new(samples, label).look(address)
}

// A split map, looked at.
pub fn map_look<S: Store + Drop, R: ReadingEnd + Drop>(
    lower: S,
    upper: R,
    address: u32,
) -> Result<Cell, StoreFault>
    ensures { result ≡ looked (joined (S.memory lower) (memory_of (R.cells upper) everything)).cells address }
{
    SplitMap::new(lower, upper).look(address)
}

// A split map, asked about its protection.
pub fn map_protected<S: Store + Drop, R: ReadingEnd + Drop>(
    lower: S,
    upper: R,
    address: u32,
) -> Result<bool, StoreFault>
    ensures { result ≡ asked (joined (S.memory lower) (memory_of (R.cells upper) everything)) address }
{
    SplitMap::new(lower, upper).protected(address)
}

// A split map, written.
pub fn map_write<S: Store + Drop, R: ReadingEnd + Drop>(
    lower: S,
    upper: R,
    address: u32,
    cell: Cell,
) -> Result<(), StoreFault>
    ensures { result ≡ write_answer (joined (S.memory lower) (memory_of (R.cells upper) everything)) address }
{
    SplitMap::new(lower, upper).write(address, cell)
}
