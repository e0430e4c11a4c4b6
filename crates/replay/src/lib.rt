//! Lists of calls on a job: any list is replayed from the beginning, and the answers are handed back.
//!
//! After every list the job stands as a book says that is kept from the calls alone, and every cell holds a nearest mark
//! of its slab. `find_field` is the list that a caller wants most: it loads a picture, works all rows and finishes;
//! `find_field_watched` tells a watcher how far it has come.
#![tactic(auto)]

mod calls;
mod jobs;
mod new_cells;
mod replaying;
mod steps;
mod watch;
mod whole;

pub use calls::{Answer, Call};
pub use jobs::{Job, Unplayed};
pub use new_cells::{FieldError, find_named_field, find_new_field};
pub use replaying::{replay, replay_both};
pub use watch::{Unwatched, Watch};
pub use whole::{find_field, find_field_watched};
