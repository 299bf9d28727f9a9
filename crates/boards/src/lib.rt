// Link boards: which bays link to which.
#![tactic(auto)]

mod bay;
mod bay_set;
mod bit_board;
mod board;
mod pair;
mod pair_list;
#[cfg(test)]
mod tests;

pub use bay_set::{has_bay, with_bay, with_bays, without_bay};
pub use bit_board::BitBoard;
pub use board::Board;
pub use pair_list::PairList;
