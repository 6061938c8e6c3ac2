ghost use Rattle.std.specs.Prelude.{◌≡◌, ◌+◌, ◌-◌, ◌<◌, ◌≤◌, length, Ok};
ghost use Rattle.memory.specs.Blocks.{all_inside, all_free, block_answer, block_written};
ghost use Rattle.memory.specs.Laws.{AllOrNothing, RefusedAtLowest};

use crate::{Cell, ReadingEnd, Store, StoreFault};

// Bytes that are to stand in a row from an address on, under one label.
#[derive(Clone, Copy)]
pub struct Block<'a> {
    pub address: u16,
    pub bytes: &'a [u8],
    pub label: u8,
}

// Are all the addresses inside, as many as the count, in a row from the first? By numbers and not a `Block`, since the questions ask nothing of its
// bytes and its label.
#[tactic(auto, using(crate::proofs::Failing::outsides))]
fn check_inside<R: ReadingEnd>(end: &R, first: u32, count: usize) -> Result<(), StoreFault>
    ensures { result ≡ all_inside (R.cells end.now) first count (Ok tt) }
{
    let size = end.size();
    if count <= size.saturating_sub(first) as usize {
        Ok(())
    } else {
        Err(StoreFault::Outside(first.max(size)))
    }
}

// Are the addresses from the first up to the end, which are all inside, all unprotected?
#[tactic(auto, using(crate::proofs::Failing::scan))]
fn check_free<S: Store>(store: &S, first: u32, end: u32) -> Result<(), StoreFault>
    requires { first < end → end ≤ length (S.memory store.now).cells }
    ensures { result ≡ all_free (S.memory store.now) first (end - first) (Ok tt) }
{
    for at in first..end {
        if store.protected(at)? {
            return Err(StoreFault::Protected(at));
        }
    }
    Ok(())
}

// The two questions of a block, in their order.
#[tactic(auto, using(crate::proofs::Blocks::questions))]
fn check_block<S: Store>(store: &S, first: u32, count: usize) -> Result<(), StoreFault>
    ensures { result ≡ block_answer (S.memory store.now) first count }
{
    check_inside(store, first, count)?;
    check_free(store, first, first + count as u32)
}

// Writes the bytes into consecutive cells, each under the label. 41 at the lowest of their addresses outside the size, then 42 at
// the lowest that is protected; a refused block changes nothing, and an empty one is never refused.
#[tactic(auto, using(crate::proofs::Placed::writing))]
pub fn write_block<S: Store>(store: &mut S, block: Block<'_>) -> Result<(), StoreFault>
    ensures answer { result ≡ block_answer (S.memory store.old) block.entry.address (length block.entry.bytes.now) }
    ensures memory { S.memory store.new ≡ block_written (S.memory store.old) block.entry.address block.entry.bytes.now block.entry.label }
    ensures frame { S.frame store.new ≡ S.frame store.old }
    ensures row { AllOrNothing result (S.memory store.old) (S.memory store.new) block.entry.address block.entry.bytes.now block.entry.label }
    ensures lowest { RefusedAtLowest (S.memory store.old) block.entry.address (block.entry.address + length block.entry.bytes.now) result }
{
    let mut at = u32::from(block.address);
    check_block(store, at, block.bytes.len())?;
    // One byte after another with a count beside them for the address: the form that this project fixes for it.
    for &value in block.bytes {
        store.write(
            at,
            Cell {
                value,
                label: block.label,
            },
        )?;
        at += 1;
    }
    Ok(())
}
