use grid::{Axis, Grid, Refusal};

// Each stage is a type of its own, so that the compiler refuses a call that it does not have.

/// A job whose cells are being marked.
#[derive(Drop)]
pub struct Painting<R> {
    pub(crate) rule: R,
    pub(crate) grid: Grid,
}

/// A job whose rows of one axis are being worked.
#[derive(Drop)]
pub struct Working<R> {
    pub(crate) rule: R,
    pub(crate) grid: Grid,
    pub(crate) axis: Axis,
}

/// A job whose cells hold their nearest marks.
#[derive(Drop)]
pub struct Finished<R> {
    pub(crate) rule: R,
    pub(crate) grid: Grid,
}

/// Where a raise leads: to the next axis, and after axis 3 to the end.
#[derive(Drop)]
pub enum Raised<R> {
    Next(Working<R>),
    Last(Finished<R>),
}

/// What a refused call hands back: the state that it took, as it was, and why it was refused.
#[derive(Drop)]
pub struct Kept<S> {
    pub state: S,
    pub refusal: Refusal,
}
