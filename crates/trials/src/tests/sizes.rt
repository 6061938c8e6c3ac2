// Sizes, looks and writes of the flat store, the small store and the echo line.
#[cfg(test)]
mod cases {
    use crate::tests::tables::{
        BLANK, FILLED, expect_answers, expect_cells, heard, outside, protected,
    };
    use stores::{Cell, EchoLine, FlatStore, SmallStore, Store};

    #[test]
    fn empty_flat_store(rt: HostRuntime) {
        let mut cells: [Cell; 0] = [];
        let mut store = FlatStore::new(&mut cells);
        expect_answers(
            &rt,
            &[(0, Err(outside(0)))],
            |address| store.write(address, FILLED),
        );
        expect_answers(
            &rt,
            &[(0, Err(outside(0)))],
            |address| store.protected(address),
        );
        expect_cells(&rt, &store, 0, &[(0, Err(outside(0)))]);
    }

    #[test]
    fn flat_store_of_one_cell(rt: HostRuntime) {
        let mut cells = [BLANK; 1];
        let mut store = FlatStore::new(&mut cells);
        expect_answers(
            &rt,
            &[(0, Ok(())), (1, Err(outside(1)))],
            |address| store.write(address, FILLED),
        );
        expect_answers(&rt, &[(0, Ok(false))], |address| store.protected(address));
        expect_cells(&rt, &store, 1, &[(0, Ok(FILLED)), (1, Err(outside(1)))]);
    }

    #[test]
    fn flat_store_of_the_most_cells(rt: HostRuntime) {
        let mut cells = [BLANK; 65_536];
        let mut store = FlatStore::new(&mut cells);
        expect_answers(
            &rt,
            &[(65_535, Ok(())), (65_536, Err(outside(65_536)))],
            |address| store.write(address, FILLED),
        );
        expect_answers(
            &rt,
            &[(65_535, Ok(false)), (65_536, Err(outside(65_536)))],
            |address| store.protected(address),
        );
        expect_cells(
            &rt,
            &store,
            65_536,
            &[(65_535, Ok(FILLED)), (65_536, Err(outside(65_536)))],
        );
    }

    #[test]
    fn flat_store_that_is_cut(rt: HostRuntime) {
        let mut cells = [BLANK; 65_537];
        let mut store = FlatStore::new(&mut cells);
        expect_answers(
            &rt,
            &[(65_535, Ok(())), (65_536, Err(outside(65_536)))],
            |address| store.write(address, FILLED),
        );
        expect_cells(
            &rt,
            &store,
            65_536,
            &[(65_535, Ok(FILLED)), (65_536, Err(outside(65_536)))],
        );
        assert_eq!(rt; cells[65_536], BLANK);
    }

    #[test]
    fn small_store(rt: HostRuntime) {
        let mut store = SmallStore::new();
        expect_cells(
            &rt,
            &store,
            256,
            &[(0, Ok(BLANK)), (254, Ok(BLANK)), (255, Ok(BLANK))],
        );
        expect_answers(
            &rt,
            &[(255, Ok(())), (256, Err(outside(256)))],
            |address| store.write(address, FILLED),
        );
        expect_answers(
            &rt,
            &[(255, Ok(false)), (256, Err(outside(256)))],
            |address| store.protected(address),
        );
        expect_cells(
            &rt,
            &store,
            256,
            &[
                (254, Ok(BLANK)),
                (255, Ok(FILLED)),
                (256, Err(outside(256))),
            ],
        );
    }

    #[test]
    fn echo_line(rt: HostRuntime) {
        let samples = [0x1234, 0xFF01];
        let bytes = [
            (0, heard(0x34)),
            (1, heard(0x12)),
            (2, heard(0x01)),
            (3, heard(0xFF)),
            (4, Err(outside(4))),
        ];
        expect_cells(&rt, &EchoLine::new(&samples, 9), 4, &bytes);
        let silence: [u16; 0] = [];
        expect_cells(&rt, &EchoLine::new(&silence, 9), 0, &[(0, Err(outside(0)))]);
    }

    #[test]
    fn echo_lines_of_the_most_cells_and_more(rt: HostRuntime) {
        let ends = [
            (65_534, heard(6)),
            (65_535, heard(5)),
            (65_536, Err(outside(65_536))),
        ];
        let most = [0x0506; 32_768];
        expect_cells(&rt, &EchoLine::new(&most, 9), 65_536, &ends);
        let more = [0x0506; 32_769];
        expect_cells(&rt, &EchoLine::new(&more, 9), 65_536, &ends);
    }

    #[test]
    fn faults_by_number_and_address(rt: HostRuntime) {
        assert_eq!(rt;
            (outside(65_536).number(), outside(65_536).address()),
            (41, 65_536)
        );
        assert_eq!(rt; (protected(3).number(), protected(3).address()), (42, 3));
    }
}
