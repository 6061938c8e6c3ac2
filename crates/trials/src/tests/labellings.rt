// Labels: ranks, boats and a roster.
#[cfg(test)]
mod cases {
    use crate::Roster;
    use crate::tests::tables::expect_answers;
    use labels::{Boats, Labelling, Ranks};

    #[test]
    fn ranks(rt: HostRuntime) {
        expect_answers(
            &rt,
            &[((3, 5), 5), ((5, 3), 5), ((4, 4), 4), ((0, 255), 255)],
            |(first, second)| Ranks.join(first, second),
        );
        expect_answers(
            &rt,
            &[
                ((1, 0), true),
                ((1, 1), true),
                ((1, 2), false),
                ((0, 0), true),
                ((0, 1), false),
                ((255, 255), true),
            ],
            |(reader, label)| Ranks.sees(reader, label),
        );
    }

    #[test]
    fn boats(rt: HostRuntime) {
        expect_answers(
            &rt,
            &[((0b0101, 0b0011), 0b0111), ((0, 0b1000_0000), 0b1000_0000)],
            |(first, second)| Boats.join(first, second),
        );
        expect_answers(
            &rt,
            &[
                ((0b0111, 0b0101), true),
                ((0b0111, 0b1001), false),
                ((0b0100, 0b0101), false),
                ((0, 0), true),
                ((0, 1), false),
                ((128, 128), true),
            ],
            |(reader, label)| Boats.sees(reader, label),
        );
    }

    #[test]
    fn roster(rt: HostRuntime) {
        let ranks = [9, 4, 4, 6];
        let roster = Roster::new(&ranks);
        expect_answers(
            &rt,
            &[
                ((1, 3), 3),
                ((3, 1), 3),
                ((1, 2), 1),
                ((2, 1), 2),
                ((0, 200), 0),
                ((200, 0), 200),
            ],
            |(first, second)| roster.join(first, second),
        );
        expect_answers(
            &rt,
            &[
                ((1, 2), true),
                ((1, 3), false),
                ((200, 0), true),
                ((200, 1), false),
            ],
            |(reader, label)| roster.sees(reader, label),
        );
    }
}
