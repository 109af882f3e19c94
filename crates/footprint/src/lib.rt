// Questions about a footprint, an interval that may be empty: where it lies beside a transcript, whether an end of it lies in a
// short intron, and whether the splice windows of a short intron reach it.
#![tactic(auto)]

mod base;
mod beside;
mod ends;
mod gaps;
mod question;
mod source;
mod span;
mod windows;

pub use base::{acceptor_spill, donor_spill};
pub use beside::classify_flank;
pub use ends::frameshift_intron_endpoint;
pub use gaps::has_frameshift_intron;
pub use source::source_ranges;
pub use windows::exonic_splice_spill;

// The lengths that a place is judged by: of the flank beside a transcript, and of the splice region into the intron on each side.
#[derive(Clone, Copy, PartialEq, Eq)]
pub struct Ranges {
    pub flank: u64,
    pub donor: u64,
    pub acceptor: u64,
}

// Where a footprint lies beside a transcript, with its distance.
#[derive(Clone, Copy, PartialEq, Eq)]
pub enum Flank {
    Overlaps,
    Upstream(u64),
    Downstream(u64),
    Far,
}

// Which splice windows of short introns a footprint beside these introns hits.
#[derive(Clone, Copy, PartialEq, Eq)]
pub struct SpliceSpill {
    pub donor: bool,
    pub acceptor: bool,
}
