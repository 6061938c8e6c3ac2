ghost use Rattle.std.specs.Prelude.{bit_or};
ghost use Rattle.labels.specs.Boats.{among};
ghost use Rattle.labels.specs.BoatsKept.{open_to_all, seen_as_both};

use crate::Labelling;

// Each bit of a label stands for a boat. A join has the boats of both labels, and a reader sees a label all of whose boats it has itself.
#[derive(Clone, Copy, Debug)]
pub struct Boats;

impl Labelling for Boats {
    ghost joined = { λ _. bit_or };

    ghost seen = { λ _. among };

    ghost open = { λ _. open_to_all };

    ghost both = { λ _. seen_as_both };

    fn join(&self, first: u8, second: u8) -> u8 {
        first | second
    }

    fn sees(&self, reader: u8, label: u8) -> bool {
        label & reader == label
    }
}
