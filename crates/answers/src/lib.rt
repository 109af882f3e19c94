// The answers to the questions, left as numbers or as a line in a lent buffer.
#![tactic(auto)]

mod call;
mod calls;
mod cds;
mod interval;
mod lent;
mod line;
mod place;
mod places;
mod position;
mod snv;

pub use call::answer_call;
pub use calls::answer_calls;
pub use interval::answer_interval;
pub use line::{answer_line, outcome_of};
pub use place::answer_place;
pub use places::answer_places;
