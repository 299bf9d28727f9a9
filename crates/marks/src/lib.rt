// Marks: what the watch remembers of accesses, and which bays hold them.
#![tactic(auto)]

mod access;
mod mark;
mod mark_list;
mod slices;

pub use mark::Mark;
pub use mark_list::{MarkList, Unopened};
