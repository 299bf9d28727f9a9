// The vocabulary of the dock watch: refusals, modes, item kinds, events and entries.
#![tactic(auto)]

mod entry;
mod fields;
mod kind;
mod kind_name;
mod line;
mod mode;
mod refusal;

pub use entry::{Entry, Event};
pub use fields::Fields;
pub use kind::{Kind, PackedKind, TextKind};
pub use kind_name::KindName;
pub use line::{displayed_line, line_end, line_of, write_line};
pub use mode::{Mode, conflict_table_is_even};
pub use refusal::{Layer, Reason, Refusal};
