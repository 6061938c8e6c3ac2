// A byte and its label.
#[derive(Clone, Copy, PartialEq, Eq, Debug)]
pub struct Cell {
    pub value: u8,
    pub label: u8,
}
