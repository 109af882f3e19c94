// What a deck contains: the ids of its transcripts, and each transcript by its place, in lent lists.
#![tactic(auto)]

mod ids;
mod lists;
mod row;
mod scalars;
mod transcript_at;

pub use ids::deck_ids;
pub use transcript_at::deck_transcript;

// The lists of a transcript, to be stored into: one by one, as callers in C lend them.
#[derive(Drop)]
pub struct TranscriptLists<'a> {
    pub scalars: &'a mut [u64; 12],
    pub exon_starts: &'a mut [u64; 512],
    pub exon_ends: &'a mut [u64; 512],
    pub seg_phases: &'a mut [u8; 512],
    pub seg_exons: &'a mut [u16; 512],
    pub seg_starts: &'a mut [u64; 512],
    pub seg_ends: &'a mut [u64; 512],
    pub selenocysteine: &'a mut [u64; 64],
}
