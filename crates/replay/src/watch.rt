//! Watching a field being found.

/// Is told how far the work on a field has come.
///
/// A watcher hears numbers and is lent no cell and no rule, so the field that is found does not depend on it.
// A trait, and no closure: a call of a closure asks of its caller that it may be called, and a method with no clause asks nothing.
pub trait Watch {
    /// So many rows of an axis are done, of so many that the axis has: told with none before the first row, and after each.
    fn rows_worked(&mut self, axis: u8, done: u32, of: u32);
}

/// A watcher that does nothing.
#[derive(Clone, Copy)]
pub struct Unwatched;

impl Watch for Unwatched {
    fn rows_worked(&mut self, _axis: u8, _done: u32, _of: u32) {}
}
