use job::{Finished, Kept, Painting, Working};

/// A job at any stage.
#[derive(Drop)]
pub enum Job<R> {
    Painting(Painting<R>),
    Working(Working<R>),
    Finished(Finished<R>),
}

/// Why a list of calls was not replayed; the rule comes back.
#[derive(Drop)]
pub enum Unplayed<R> {
    /// There is not exactly one slot for the answer of each call.
    AnswerCount(R),
    /// The job was refused at its beginning.
    Begin(Kept<R>),
}
