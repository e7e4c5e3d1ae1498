use crate::Item;

/// What a line means.
#[derive(Drop)]
pub(crate) enum Meaning {
    /// It is a comment.
    Nothing,
    /// It says an item.
    Item(Item),
    /// It ends the source.
    End,
}
