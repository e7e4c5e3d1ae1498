use lvdc_word::Cell;

/// What is stuck in a cell: its bits under the mask are those of the value.
#[derive(Clone, Copy, PartialEq, Eq)]
pub struct Stuck {
    pub mask: Cell,
    pub value: Cell,
}
