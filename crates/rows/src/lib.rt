//! The pass over one row of cells: each place of the row gets a nearest of the points that the row holds, under any rule
//! of distance, in time linear in the row.
#![tactic(auto)]

mod candidate;
mod gather;
mod places;
mod room;
mod serve;
mod stack;
mod work;

pub use room::Room;
pub use work::work_row;
