// Two reading ends put together, one above the other, whatever they are.
ghost use Rattle.std.specs.Prelude.{◌≡◌, ◌+◌, ◌<◌, ◌++◌, length};
ghost use Rattle.memory.specs.Memory.{looked};
ghost use Rattle.memory.specs.Refusals.{told};
ghost use Rattle.stores.specs.Cut.{cut};
ghost use Rattle.stores.specs.Joints.{raised};

use memory::{Cell, MOST_CELLS, ReadingEnd, StoreFault};

// A fault of the upper of two parts, with its address in the whole.
fn raised(fault: StoreFault, joint: u32) -> StoreFault
    requires { joint + (told fault).address < 4294967296 }
    ensures { result ≡ raised joint fault }
{
    match fault {
        StoreFault::Outside(address) => StoreFault::Outside(joint + address),
        StoreFault::Protected(address) => StoreFault::Protected(joint + address),
    }
}

// The size of both together.
#[tactic(auto, using(crate::proofs::Cuts::sums))]
pub(crate) fn joint_size<L: ReadingEnd, U: ReadingEnd>(lower: &L, upper: &U) -> u32
    ensures { result ≡ length (cut (L.cells lower.now ++ U.cells upper.now)) }
{
    (lower.size() + upper.size()).min(MOST_CELLS)
}

// A look at both together.
#[tactic(auto, using(crate::proofs::Joints::looks))]
pub(crate) fn joint_look<L: ReadingEnd, U: ReadingEnd>(
    lower: &L,
    upper: &U,
    address: u32,
) -> Result<Cell, StoreFault>
    ensures { result ≡ looked (cut (L.cells lower.now ++ U.cells upper.now)) address }
{
    let joint = lower.size();
    if address < joint {
        lower.look(address)
    } else if address < MOST_CELLS {
        upper
            .look(address - joint)
            .map_err(|fault| raised(fault, joint))
    } else {
        Err(StoreFault::Outside(address))
    }
}
