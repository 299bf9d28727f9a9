// Translations: from a packed log to a text list, and from a text list to a packed log.
#![tactic(auto)]

mod pass;
mod to_log;
mod to_text;

pub use to_log::text_to_log;
pub use to_text::{ROOM_FOR_ANY_LOG, log_to_text};
