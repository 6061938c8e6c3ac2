// Split maps: the joint, the cut, protection, maps over maps.
#[cfg(test)]
mod cases {
    use crate::tests::tables::{
        BLANK, FILLED, expect_answers, expect_cells, heard, outside, protected,
    };
    use stores::{Cell, EchoLine, FlatStore, SmallStore, SplitMap, Store};

    #[test]
    fn both_sides_of_the_joint(rt: HostRuntime) {
        let mut cells = [BLANK; 3];
        let samples = [0x1234, 0xFF01];
        let mut map = SplitMap::new(FlatStore::new(&mut cells), EchoLine::new(&samples, 9));
        let answers = [
            (2, Ok(())),
            (3, Err(protected(3))),
            (6, Err(protected(6))),
            (7, Err(outside(7))),
        ];
        expect_answers(&rt, &answers, |address| map.write(address, FILLED));
        expect_answers(
            &rt,
            &[
                (2, Ok(false)),
                (3, Ok(true)),
                (6, Ok(true)),
                (7, Err(outside(7))),
            ],
            |address| map.protected(address),
        );
        let all = [
            (1, Ok(BLANK)),
            (2, Ok(FILLED)),
            (3, heard(0x34)),
            (6, heard(0xFF)),
            (7, Err(outside(7))),
        ];
        expect_cells(&rt, &map, 7, &all);
        let (store, line) = map.into_parts();
        expect_cells(&rt, &store, 3, &[(2, Ok(FILLED))]);
        expect_cells(&rt, &line, 4, &[(0, heard(0x34))]);
    }

    #[test]
    fn an_empty_store_below(rt: HostRuntime) {
        let mut none: [Cell; 0] = [];
        let samples = [0x1234];
        let mut map = SplitMap::new(FlatStore::new(&mut none), EchoLine::new(&samples, 9));
        expect_answers(
            &rt,
            &[(0, Err(protected(0))), (2, Err(outside(2)))],
            |address| map.write(address, FILLED),
        );
        expect_cells(
            &rt,
            &map,
            2,
            &[(0, heard(0x34)), (1, heard(0x12)), (2, Err(outside(2)))],
        );
    }

    #[test]
    fn an_empty_line_above(rt: HostRuntime) {
        let mut cells = [BLANK; 2];
        let silence: [u16; 0] = [];
        let mut map = SplitMap::new(FlatStore::new(&mut cells), EchoLine::new(&silence, 9));
        expect_answers(
            &rt,
            &[(1, Ok(())), (2, Err(outside(2)))],
            |address| map.write(address, FILLED),
        );
        expect_cells(
            &rt,
            &map,
            2,
            &[(0, Ok(BLANK)), (1, Ok(FILLED)), (2, Err(outside(2)))],
        );
    }

    #[test]
    fn a_store_above_is_protected(rt: HostRuntime) {
        let mut cells = [BLANK; 3];
        let mut map = SplitMap::new(FlatStore::new(&mut cells), SmallStore::new());
        expect_answers(
            &rt,
            &[
                (2, Ok(())),
                (3, Err(protected(3))),
                (258, Err(protected(258))),
                (259, Err(outside(259))),
            ],
            |address| map.write(address, FILLED),
        );
        expect_cells(
            &rt,
            &map,
            259,
            &[
                (2, Ok(FILLED)),
                (3, Ok(BLANK)),
                (258, Ok(BLANK)),
                (259, Err(outside(259))),
            ],
        );
    }

    #[test]
    fn as_many_as_the_most_cells(rt: HostRuntime) {
        let mut cells = [BLANK; 65_534];
        let samples = [0x1234];
        let map = SplitMap::new(FlatStore::new(&mut cells), EchoLine::new(&samples, 9));
        expect_cells(
            &rt,
            &map,
            65_536,
            &[
                (65_534, heard(0x34)),
                (65_535, heard(0x12)),
                (65_536, Err(outside(65_536))),
            ],
        );
    }

    #[test]
    fn one_more_than_the_most_cells(rt: HostRuntime) {
        let mut cells = [BLANK; 65_535];
        let samples = [0x1234];
        let mut map = SplitMap::new(FlatStore::new(&mut cells), EchoLine::new(&samples, 9));
        let answers = [
            (65_534, Ok(())),
            (65_535, Err(protected(65_535))),
            (65_536, Err(outside(65_536))),
        ];
        expect_answers(&rt, &answers, |address| map.write(address, FILLED));
        expect_answers(
            &rt,
            &[(65_535, Ok(true)), (65_536, Err(outside(65_536)))],
            |address| map.protected(address),
        );
        expect_cells(
            &rt,
            &map,
            65_536,
            &[
                (65_534, Ok(FILLED)),
                (65_535, heard(0x34)),
                (65_536, Err(outside(65_536))),
            ],
        );
    }

    #[test]
    fn a_line_that_is_cut_away(rt: HostRuntime) {
        let mut cells = [BLANK; 65_536];
        let samples = [0x1234];
        let mut map = SplitMap::new(FlatStore::new(&mut cells), EchoLine::new(&samples, 9));
        expect_answers(
            &rt,
            &[(65_535, Ok(())), (65_536, Err(outside(65_536)))],
            |address| map.write(address, FILLED),
        );
        expect_cells(
            &rt,
            &map,
            65_536,
            &[(65_535, Ok(FILLED)), (65_536, Err(outside(65_536)))],
        );
    }

    #[test]
    fn a_map_over_a_map(rt: HostRuntime) {
        let mut cells = [BLANK; 1];
        let near = [0x0201];
        let far = [0x0403];
        let lower = SplitMap::new(FlatStore::new(&mut cells), EchoLine::new(&near, 9));
        let mut map = SplitMap::new(lower, EchoLine::new(&far, 9));
        expect_answers(
            &rt,
            &[(0, Ok(())), (1, Err(protected(1))), (4, Err(protected(4)))],
            |address| map.write(address, FILLED),
        );
        let all = [
            (0, Ok(FILLED)),
            (2, heard(2)),
            (3, heard(3)),
            (4, heard(4)),
            (5, Err(outside(5))),
        ];
        expect_cells(&rt, &map, 5, &all);
    }
}
