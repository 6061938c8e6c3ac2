ghost use Rattle.std.specs.Prelude.{◌≡◌};
ghost use Rattle.trials.specs.Roster.{rank, senior, outranked};
ghost use Rattle.trials.specs.RosterKept.{open_to_all, seen_as_both};

use labels::Labelling;

// Ranks looked up in a table that was lent. Label 0, and labels past the table, have rank 0.
#[derive(Clone, Copy)]
pub struct Roster<'a> {
    ranks: &'a [u8],
}

impl<'a> Roster<'a> {
    pub fn new(ranks: &'a [u8]) -> Roster<'a>
        ensures { result.ranks.now ≡ ranks.now }
    {
        Roster { ranks }
    }

    fn rank(&self, label: u8) -> u8
        ensures { result ≡ rank self.now.ranks.now label }
    {
        if label == 0 {
            0
        } else {
            self.ranks.get(usize::from(label)).copied().unwrap_or(0)
        }
    }
}

// The join is the label of the higher rank, and of two of one rank the first. A reader sees labels of ranks up to its own.
impl<'a> Labelling for Roster<'a> {
    ghost joined = { λ s. senior s.ranks.now };

    ghost seen = { λ s. outranked s.ranks.now };

    ghost open = { λ s. open_to_all s.ranks.now };

    ghost both = { λ s. seen_as_both s.ranks.now };

    fn join(&self, first: u8, second: u8) -> u8 {
        if self.rank(second) <= self.rank(first) {
            first
        } else {
            second
        }
    }

    fn sees(&self, reader: u8, label: u8) -> bool {
        self.rank(label) <= self.rank(reader)
    }
}
