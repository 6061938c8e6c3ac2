ghost use Rattle.std.specs.Prelude.{◌≡◌, ℕ, ◌++◌, ◌<◌, ◌≤◌, length, nat_lt, IfOk, IfErr};
ghost use Rattle.memory.specs.declared.StoreFault.TheVariants.{Outside};
ghost use Rattle.memory.specs.Memory.{memory_of};
ghost use Rattle.stores.specs.Cut.{cut, cut_bounded};
ghost use Rattle.stores.specs.Joints.{joined, joined_cells, joined_trimmed};
ghost use Rattle.stores.specs.Laws.{JoinedAsParts};
ghost use Rattle.stores.specs.Protection.{everything};

use crate::joint::{joint_look, joint_size};
use memory::{Cell, ReadingEnd, Store, StoreFault};

// A reading end above a store: the addresses behind the store's last one are the reading end's, and protected.
#[derive(Drop)]
pub struct SplitMap<S, R> {
    lower: S,
    upper: R,
}

impl<S: Store, R: ReadingEnd> SplitMap<S, R> {
    #[tactic(auto, using(crate::proofs::Joints::joined_as_parts))]
    pub fn new(lower: S, upper: R) -> SplitMap<S, R>
        ensures lower { result.lower ≡ lower }
        ensures upper { result.upper ≡ upper }
        ensures law { JoinedAsParts }
    {
        SplitMap { lower, upper }
    }

    // Takes the map apart again.
    pub fn into_parts(self) -> (S, R)
        ensures lower { result.0 ≡ self.lower }
        ensures upper { result.1 ≡ self.upper }
    {
        let SplitMap { lower, upper } = self;
        (lower, upper)
    }

    // Is an address the store's? 41 outside the size. The reading end is asked nothing for an address below the joint.
    fn is_lower(&self, address: u32) -> Result<bool, StoreFault>
        ensures ok { IfOk result (λ is. (address < length (cut (S.cells self.now.lower ++ R.cells self.now.upper))) × (is ≡ nat_lt address (length (S.cells self.now.lower)))) }
        ensures err { IfErr result (λ e. (length (cut (S.cells self.now.lower ++ R.cells self.now.upper)) ≤ address) × (e ≡ Outside address)) }
    {
        let is_lower = address < self.lower.size();
        if is_lower || address < self.size() {
            Ok(is_lower)
        } else {
            Err(StoreFault::Outside(address))
        }
    }
}

impl<S: Store, R: ReadingEnd> ReadingEnd for SplitMap<S, R> {
    ghost cells = { λ m. cut (S.cells m.lower ++ R.cells m.upper) };

    ghost bounded = { λ m. cut_bounded (S.cells m.lower ++ R.cells m.upper) };

    fn size(&self) -> u32 {
        joint_size(&self.lower, &self.upper)
    }

    fn look(&self, address: u32) -> Result<Cell, StoreFault> {
        joint_look(&self.lower, &self.upper, address)
    }
}

impl<S: Store, R: ReadingEnd> Store for SplitMap<S, R> {
    ghost memory = { λ m. joined (S.memory m.lower) (memory_of (R.cells m.upper) everything) };

    // The frame of the store, the joint, and the reading end.
    ghost Frame = { S.Frame × ℕ × R };

    ghost frame = { λ m. (S.frame m.lower, length (S.cells m.lower), m.upper) };

    #[tactic(auto, using(crate::proofs::Joints::uppers))]
    fn protected(&self, address: u32) -> Result<bool, StoreFault> {
        if self.is_lower(address)? {
            self.lower.protected(address)
        } else {
            Ok(true)
        }
    }

    #[tactic(auto, using(crate::proofs::Joints::uppers))]
    fn write(&mut self, address: u32, cell: Cell) -> Result<(), StoreFault> {
        if self.is_lower(address)? {
            self.lower.write(address, cell)
        } else {
            Err(StoreFault::Protected(address))
        }
    }

    ghost same_cells = { λ m. joined_cells (S.memory m.lower) (memory_of (R.cells m.upper) everything) (S.cells m.lower) (S.same_cells m.lower) };

    ghost trimmed = { λ m. joined_trimmed (S.memory m.lower) (memory_of (R.cells m.upper) everything) };
}
