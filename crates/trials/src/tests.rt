// Each expected value is what the rules of docs/stores.md and docs/labels.md give.
mod blocks;
mod joints;
mod labellings;
mod sizes;

#[cfg(test)]
pub(crate) mod tables {
    use std::fmt::Debug;
    use std::process::Abort;
    use std::test::Fail;
    use stores::{Block, Cell, ReadingEnd, Store, StoreFault, write_block};

    pub(crate) const BLANK: Cell = Cell { value: 0, label: 0 };

    pub(crate) const FILLED: Cell = Cell { value: 7, label: 2 };

    // A cell of an echo line under label 9.
    pub(crate) fn heard(value: u8) -> Result<Cell, StoreFault> {
        Ok(Cell { value, label: 9 })
    }

    pub(crate) fn outside(address: u32) -> StoreFault {
        StoreFault::Outside(address)
    }

    pub(crate) fn protected(address: u32) -> StoreFault {
        StoreFault::Protected(address)
    }

    // The answer to each question of a table, which stands beside it.
    pub(crate) fn expect_answers<Q: Copy, A: Copy + PartialEq + Debug, F: FnMut(Q) -> A>(
        rt: &impl Abort,
        table: &[(Q, A)],
        mut ask: F,
    )
        requires { F.IsAlwaysCallable ask }
    {
        for &(question, answer) in table {
            assert_eq!(rt; ask(question), answer);
        }
    }

    // The size, and what stands at each address of a table.
    pub(crate) fn expect_cells<E: ReadingEnd>(
        rt: &impl Abort,
        end: &E,
        size: u32,
        table: &[(u32, Result<Cell, StoreFault>)],
    ) {
        assert_eq!(rt; end.size(), size);
        expect_answers(rt, table, |address| end.look(address));
    }

    // Each row of a table has an address, a number of bytes and the answer. The bytes are 1, 2, 3 and so on up to 8, under label 5.
    pub(crate) fn expect_blocks<S: Store>(
        rt: &impl Abort,
        store: &mut S,
        table: &[(u16, usize, Result<(), StoreFault>)],
    ) -> Result<(), Fail> {
        let bytes = [1, 2, 3, 4, 5, 6, 7, 8];
        // A loop of its own, since a count past these bytes ends the test.
        for &(address, count, answer) in table {
            let Some(bytes) = bytes.get(..count) else {
                return Err(Fail::new("a block of more than eight bytes"));
            };
            let block = Block {
                address,
                bytes,
                label: 5,
            };
            assert_eq!(rt; write_block(store, block), answer);
        }
        Ok(())
    }
}
