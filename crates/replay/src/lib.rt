// From the bytes of a packed log to the verdict on it.
#![tactic(auto)]

mod open_bays;
mod replay;
mod summary;
mod tally;

pub use replay::watch_log;
pub use summary::Summary;
