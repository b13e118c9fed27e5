//! What stands at one place of a row of items.

/// An item of so many bytes; so many bytes that make no item; the end of the row, of so many
/// bytes; or the bytes end before the row does.
#[derive(Debug, Drop)]
pub enum Found<T> {
    Item(T, usize),
    Wrong(usize),
    Over(usize),
    Missing,
}
