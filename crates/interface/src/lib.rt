// The questions for callers in C and Rust. A transcript comes as a struct and lent lists, and an answer is left as numbers or as lines
// in a lent buffer.
#![tactic(auto)]

mod abi;
mod admission;
mod calling;
mod decks;
mod given;
mod interval;
mod line;
mod list;
mod placing;

pub use abi::vareffect_abi;
pub use admission::vareffect_admit;
pub use calling::{vareffect_call, vareffect_calls};
pub use decks::{vareffect_check_deck, vareffect_deck_ids, vareffect_deck_transcript};
pub use interval::vareffect_interval;
pub use line::vareffect_line;
pub use list::vareffect_list;
pub use placing::{vareffect_place, vareffect_places};
