// The listing in pieces. What is judged once, the deck with its transcripts, is kept in columns that the caller lends: the deck's table,
// and an index of it.
#![tactic(auto)]

mod call;
mod called;
mod entry;
mod fill;
mod index;
mod line;
mod list;
mod open;
mod opened;
mod parsed;
mod piece;
mod row;

pub use list::list_piece;
pub use open::open_listing;
pub use piece::next_piece;

// The files that a listing is made of, as they are.
#[derive(Clone, Copy)]
pub struct ListingFiles<'a> {
    pub deck: &'a [u8],
    pub window: &'a [u8],
    pub calls: &'a [u8],
}

// A transcript of a table: its row, where its parts end, and whether it has a short intron. In two bytes each, since an index has 4096.
#[derive(Clone, Copy)]
pub struct IndexEntry {
    pub row: u16,
    pub exons: u16,
    pub bounds: u16,
    pub segments: u16,
    pub bases: u16,
    pub short: bool,
}

// What is computed once for the transcripts of a table: an entry for each, in their order, and from each one's row on the cumulative
// lengths of its exons and of its CDS. The sums are a column, since a question is lent its transcript's as a slice.
// Fixed memory: a count beside the array, no Vec.
#[derive(Drop)]
pub struct TableIndex {
    pub count: usize,
    pub entries: [IndexEntry; 4096],
    pub sums: [u32; 4096],
}
