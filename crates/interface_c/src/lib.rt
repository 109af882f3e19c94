// The exports of `interface` for C: each calls the function of its name there and states its clauses again, since C sees only what is
// exported under its own name.
#![tactic(auto)]

mod abi;
mod admission;
mod calling;
mod decks;
mod interval;
mod line;
mod list;
mod placing;
