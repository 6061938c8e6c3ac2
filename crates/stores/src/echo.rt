ghost use Rattle.std.specs.Prelude.{◌≡◌, ◌≤◌, length};
ghost use Rattle.stores.specs.Cut.{cut, cut_bounded};
ghost use Rattle.stores.specs.Echo.{heard};

use memory::{Cell, MOST_CELLS, ReadingEnd, StoreFault};

// Samples of sixteen bits under one label, the low byte of each first. At most 65,536 bytes are read.
#[derive(Clone, Copy)]
pub struct EchoLine<'a> {
    samples: &'a [u16],
    label: u8,
}

impl<'a> EchoLine<'a> {
    pub fn new(samples: &'a [u16], label: u8) -> EchoLine<'a>
        ensures samples { result.samples.now ≡ samples.now }
        ensures label { result.label ≡ label }
    {
        EchoLine { samples, label }
    }

    // The samples that can be addressed.
    #[tactic(auto, using(crate::proofs::Heard::hearing))]
    fn heard(&self) -> &'a [u16]
        ensures cells { heard self.now.label result.now ≡ cut (heard self.now.label self.now.samples.now) }
        ensures count { length result.now ≤ 32768 }
    {
        &self.samples[..self.samples.len().min(MOST_CELLS as usize / 2)]
    }
}

impl<'a> ReadingEnd for EchoLine<'a> {
    ghost cells = { λ e. cut (heard e.label e.samples.now) };

    ghost bounded = { λ e. cut_bounded (heard e.label e.samples.now) };

    #[tactic(auto, using(crate::proofs::Heard::hearing))]
    fn size(&self) -> u32 {
        2 * self.heard().len() as u32
    }

    #[tactic(auto, using(crate::proofs::Heard::hearing))]
    fn look(&self, address: u32) -> Result<Cell, StoreFault> {
        let sample = self
            .heard()
            .get(address as usize / 2)
            .ok_or(StoreFault::Outside(address))?;
        let [low, high] = sample.to_le_bytes();
        let value = if address % 2 == 0 { low } else { high };
        Ok(Cell {
            value,
            label: self.label,
        })
    }
}
