// Entries over lent records: exons as a slice of records.
#![tactic(auto)]

mod bases;
mod call;
mod place;
mod table;

pub use bases::{base_at, in_window};
pub use call::annotate_exons;
pub use consequence::Window;
pub use place::locate_exons;

// The number of exons, and the starts and the ends of up to 512 of them, then zeros. Columns, since locate is lent slices of
// starts and of ends.
#[derive(Drop)]
pub struct ExonTable {
    pub count: usize,
    pub starts: [u64; 512],
    pub ends: [u64; 512],
}
