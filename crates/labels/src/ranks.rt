ghost use Rattle.std.specs.Prelude.{max};
ghost use Rattle.labels.specs.Ranks.{up_to};
ghost use Rattle.labels.specs.RanksKept.{open_to_all, seen_as_both};

use crate::Labelling;

// The join is the larger label, and a reader sees the labels up to its own number.
#[derive(Clone, Copy, Debug)]
pub struct Ranks;

impl Labelling for Ranks {
    ghost joined = { λ _. max };

    ghost seen = { λ _. up_to };

    ghost open = { λ _. open_to_all };

    ghost both = { λ _. seen_as_both };

    fn join(&self, first: u8, second: u8) -> u8 {
        first.max(second)
    }

    fn sees(&self, reader: u8, label: u8) -> bool {
        label <= reader
    }
}
