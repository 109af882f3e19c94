// Printed lines of answered and refused calls.
#![tactic(auto)]

pub mod answer;
mod called;
mod columns;
pub mod line;
mod places;

pub use called::write_called;
pub use places::place_name;
