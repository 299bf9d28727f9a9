// The watch over the bays: what calls are made, what they answer, and what the answers are worth.
#![tactic(auto)]

mod answer;
mod bay_record;
mod bays;
mod events;
mod links;
mod opening;
mod questions;
mod run;
mod watch;

pub use answer::{Answer, Outcome, Verdict};
pub use bay_record::{BayRecord, BayState};
pub use run::{Run, RunError, run_calls, the_calls_of_a_run_settle_its_answers};
pub use watch::Watch;
