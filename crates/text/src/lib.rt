// Text lists: a first line with the kind and the number of bays, then a line for each entry.
#![tactic(auto)]

mod form;
mod letter;
mod line;
mod list;
mod reader;
mod token;
mod writer;

pub use list::read_list;
pub use reader::{ListReader, list_kind};
pub use writer::ListWriter;
