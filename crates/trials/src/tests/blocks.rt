// Blocks: all or nothing, 41 before 42, each at its lowest address.
#[cfg(test)]
mod cases {
    use crate::tests::tables::{BLANK, expect_blocks, expect_cells, heard, outside, protected};
    use std::test::Fail;
    use stores::{Cell, EchoLine, FlatStore, SmallStore, SplitMap, StoreFault};

    // A byte of a block.
    fn put(value: u8) -> Result<Cell, StoreFault> {
        Ok(Cell { value, label: 5 })
    }

    #[test]
    fn bytes_in_a_row(rt: HostRuntime) -> Result<(), Fail> {
        let mut store = SmallStore::new();
        expect_blocks(&rt, &mut store, &[(253, 3, Ok(()))])?;
        expect_cells(
            &rt,
            &store,
            256,
            &[
                (252, Ok(BLANK)),
                (253, put(1)),
                (254, put(2)),
                (255, put(3)),
            ],
        );
        Ok(())
    }

    #[test]
    fn over_the_end(rt: HostRuntime) -> Result<(), Fail> {
        let mut store = SmallStore::new();
        let answers = [
            (254, 3, Err(outside(256))),
            (255, 2, Err(outside(256))),
            (256, 1, Err(outside(256))),
            (300, 2, Err(outside(300))),
        ];
        expect_blocks(&rt, &mut store, &answers)?;
        expect_cells(&rt, &store, 256, &[(254, Ok(BLANK)), (255, Ok(BLANK))]);
        Ok(())
    }

    #[test]
    fn empty_blocks(rt: HostRuntime) -> Result<(), Fail> {
        let mut small = SmallStore::new();
        expect_blocks(
            &rt,
            &mut small,
            &[(0, 0, Ok(())), (256, 0, Ok(())), (65_535, 0, Ok(()))],
        )?;
        let mut none: [Cell; 0] = [];
        let mut empty = FlatStore::new(&mut none);
        expect_blocks(
            &rt,
            &mut empty,
            &[(0, 0, Ok(())), (65_535, 0, Ok(())), (0, 1, Err(outside(0)))],
        )
    }

    #[test]
    fn no_wrap(rt: HostRuntime) -> Result<(), Fail> {
        let mut cells = [BLANK; 65_536];
        let mut store = FlatStore::new(&mut cells);
        expect_blocks(
            &rt,
            &mut store,
            &[(65_534, 2, Ok(())), (65_535, 2, Err(outside(65_536)))],
        )?;
        expect_cells(
            &rt,
            &store,
            65_536,
            &[(0, Ok(BLANK)), (65_534, put(1)), (65_535, put(2))],
        );
        Ok(())
    }

    #[test]
    fn over_protected_cells(rt: HostRuntime) -> Result<(), Fail> {
        let mut cells = [BLANK; 3];
        let samples = [0x1234, 0xFF01];
        let mut map = SplitMap::new(FlatStore::new(&mut cells), EchoLine::new(&samples, 9));
        let refused = [
            (1, 3, Err(protected(3))),
            (5, 2, Err(protected(5))),
            (6, 2, Err(outside(7))),
            (0, 8, Err(outside(7))),
            (4, 0, Ok(())),
        ];
        expect_blocks(&rt, &mut map, &refused)?;
        expect_cells(
            &rt,
            &map,
            7,
            &[(0, Ok(BLANK)), (1, Ok(BLANK)), (2, Ok(BLANK))],
        );
        expect_blocks(&rt, &mut map, &[(0, 3, Ok(()))])?;
        expect_cells(
            &rt,
            &map,
            7,
            &[(0, put(1)), (1, put(2)), (2, put(3)), (3, heard(0x34))],
        );
        Ok(())
    }
}
