ghost use Rattle.std.specs.Prelude.{◌≡◌, true, ◌&&◌, max, bit_or};
ghost use Rattle.labels.specs.Boats.{among};
ghost use Rattle.labels.specs.Ranks.{up_to};

use labels::{Boats, Labelling, Ranks};

// Does a reader see label 0? Under every labelling it does.
pub fn sees_public<L: Labelling>(labelling: &L, reader: u8) -> bool
    ensures { result ≡ true }
{
    labelling.sees(reader, 0)
}

// Does a reader see the join of two labels? Under every labelling it does if it sees both, and otherwise not.
pub fn sees_join<L: Labelling>(labelling: &L, reader: u8, first: u8, second: u8) -> bool
    ensures meaning { result ≡ L.seen labelling.now reader (L.joined labelling.now first second) }
    ensures both { result ≡ (L.seen labelling.now reader first && L.seen labelling.now reader second) }
{
    labelling.sees(reader, labelling.join(first, second))
}

// The same by ranks, and by sets of boats.
pub fn ranks_and_boats_see_join(reader: u8, first: u8, second: u8) -> (bool, bool)
    ensures ranks { result.0 ≡ up_to reader (max first second) }
    ensures boats { result.1 ≡ among reader (bit_or first second) }
{
    (
        sees_join(&Ranks, reader, first, second),
        sees_join(&Boats, reader, first, second),
    )
}
