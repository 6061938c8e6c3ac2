// Numbers right-justified with leading blanks in columns.
#![tactic(auto)]

ghost use Rattle.std.specs.Prelude.{◌≡◌, length, decimal};
ghost use Rattle.columns.specs.Columns.{justified_answer, justified, justified_at_answer, justified_at};

use itoa::write_digits;

// Why a number is not laid into columns.
#[derive(Clone, Copy, PartialEq, Eq, Debug)]
pub enum ColumnsError {
    // the columns are not all in the buffer
    NoRoom,
    // the number has more figures than there are columns
    TooLong,
}

// How many figures a number has.
#[tactic(auto, using(crate::proofs::Powers::counts))]
fn figures(n: u64) -> usize
    ensures { result ≡ length (decimal n) }
{
    n.checked_ilog10().map_or(1, |log| log as usize + 1)
}

// Lays a number over a whole field, right-justified; nothing is written where it does not fit. Always inlined, since for a
// short number the call would be about a third of the work.
#[inline(always)]
#[tactic(auto, unfolding(crate::specs::Columns::padded))]
pub fn justify(field: &mut [u8], n: u64) -> Result<(), ColumnsError>
    ensures answer { result ≡ justified_answer field.old n }
    ensures after { field.new ≡ justified field.old n }
{
    if figures(n) > field.len() {
        return Err(ColumnsError::TooLong);
    }
    let end = field.len();
    let blanks = write_digits(n, field, end);
    field[..blanks].fill(b' ');
    Ok(())
}

// Lays a number into some columns of a buffer, right-justified, and writes nothing else of the buffer.
pub fn justify_at(out: &mut [u8], from: usize, width: usize, n: u64) -> Result<(), ColumnsError>
    ensures answer { result ≡ justified_at_answer out.old from width n }
    ensures after { out.new ≡ justified_at out.old from width n }
{
    match from.checked_add(width) {
        Some(end) if end <= out.len() => justify(&mut out[from..end], n),
        _ => Err(ColumnsError::NoRoom),
    }
}

#[cfg(test)]
mod tests {
    use super::*;

    fn in_eight(n: u64) -> [u8; 8] {
        let mut field = [b'*'; 8];
        let _ = justify(&mut field, n);
        field
    }

    #[test]
    fn a_field_is_filled_from_the_right(rt: HostRuntime) {
        assert!(rt; in_eight(0) == *b"       0");
        assert!(rt; in_eight(9) == *b"       9");
        assert!(rt; in_eight(10) == *b"      10");
        assert!(rt; in_eight(12_345_678) == *b"12345678");
    }

    #[test]
    fn what_does_not_fit_is_refused_and_not_written(rt: HostRuntime) {
        assert!(rt; in_eight(100_000_000) == *b"********");
        assert_eq!(rt; justify(&mut [], 0), Err(ColumnsError::TooLong));
        let mut field = [b'*'; 20];
        assert_eq!(rt;
            justify(&mut field[0..19], u64::MAX),
            Err(ColumnsError::TooLong)
        );
        assert_eq!(rt; justify(&mut field, u64::MAX), Ok(()));
        assert!(rt; field == *b"18446744073709551615");
    }

    #[test]
    fn columns_lie_inside_the_buffer(rt: HostRuntime) {
        let mut out = [b'*'; 6];
        assert_eq!(rt; justify_at(&mut out, 2, 3, 7), Ok(()));
        assert!(rt; out == *b"**  7*");
        assert_eq!(rt; justify_at(&mut out, 4, 3, 7), Err(ColumnsError::NoRoom));
        assert_eq!(rt; justify_at(&mut out, 7, 0, 7), Err(ColumnsError::NoRoom));
        assert_eq!(rt;
            justify_at(&mut out, usize::MAX, 1, 7),
            Err(ColumnsError::NoRoom)
        );
        assert_eq!(rt; justify_at(&mut out, 0, 2, 100), Err(ColumnsError::TooLong));
        assert!(rt; out == *b"**  7*");
    }
}
