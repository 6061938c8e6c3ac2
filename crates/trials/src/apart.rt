ghost use Rattle.std.specs.Prelude.{◌≡◌};
ghost use Rattle.memory.specs.Memory.{written};

use stores::{Cell, ReadingEnd, SplitMap, Store};

// A write through a split map that is then taken apart: the store is as the same write to it alone would leave it, and the reading end is
// as it was.
#[tactic(auto, using(stores::proofs::Apart::part_written))]
pub fn write_then_part<S: Store, R: ReadingEnd>(
    lower: S,
    upper: R,
    address: u32,
    cell: Cell,
) -> (S, R)
    ensures lower { S.memory result.0 ≡ written (S.memory lower) address cell }
    ensures frame { S.frame result.0 ≡ S.frame lower }
    ensures upper { result.1 ≡ upper }
{
    let mut map = SplitMap::new(lower, upper);
    let _ = map.write(address, cell);
    map.into_parts()
}
