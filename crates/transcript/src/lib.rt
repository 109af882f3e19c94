// A transcript as it is handed in, and whether it is admitted. Coordinates are 0-based and half-open.
#![tactic(auto)]

pub mod admission;
mod coding;
pub mod limits;
pub mod order;
pub mod oriented;
pub mod question;
pub mod segments;

ghost use Rattle.std.specs.Prelude.{◌≡◌};
ghost use Rattle.transcript.specs.Transcript.{transcript_of};
ghost use Rattle.transcript.specs.Admission.{admission_of};

use coding::judge_segments;
use common::refusal::Refusal;
use limits::{judge_coordinates, judge_counts};
use order::{judge_exons, judge_frame};
use segments::judge_selenocysteine;

#[derive(Clone, Copy, PartialEq, Eq)]
pub enum Strand {
    Plus,
    Minus,
}

#[derive(Clone, Copy)]
pub struct Exon {
    pub genomic_start: u64,
    pub genomic_end: u64,
}

#[derive(Clone, Copy)]
pub struct CdsSegment {
    pub phase: u8,
    pub exon_index: u16,
    pub genomic_start: u64,
    pub genomic_end: u64,
}

#[derive(Clone, Copy)]
pub struct CdsBounds {
    pub cds_genomic_start: u64,
    pub cds_genomic_end: u64,
}

// A transcript without its lists of exons, CDS segments and selenocysteine bases.
#[derive(Clone, Copy)]
pub struct TranscriptModel {
    pub id: u32,
    pub chromosome: u16,
    pub strand: Strand,
    pub exon_count: u16,
    pub tx_start: u64,
    pub tx_end: u64,
    pub cds: Option<CdsBounds>,
    pub cds_start_complete: bool,
}

// Intervals, lent as the list of their starts and that of their ends: so callers in C lend them.
#[derive(Clone, Copy)]
pub struct Intervals<'a> {
    pub starts: &'a [u64],
    pub ends: &'a [u64],
}

// Intervals with the strand that they lie on, so that each can be read in oriented coordinates.
#[derive(Clone, Copy)]
pub struct Stranded<'a> {
    pub intervals: Intervals<'a>,
    pub strand: Strand,
}

// CDS segments, lent as a list for each field: so callers in C lend them.
#[derive(Clone, Copy)]
pub struct CdsSegments<'a> {
    pub phases: &'a [u8],
    pub exon_indexes: &'a [u16],
    pub bases: Intervals<'a>,
}

// A transcript, its lists lent.
#[derive(Clone, Copy)]
pub struct Transcript<'a> {
    pub model: TranscriptModel,
    pub exons: Intervals<'a>,
    pub segments: CdsSegments<'a>,
    pub selenocysteine: &'a [u64],
}

// Whether the transcript is admitted: the first cause in the order of the papers that turns it away.
pub fn admit(transcript: &Transcript) -> Result<(), Refusal>
    ensures { result ≡ admission_of (transcript_of transcript.now) }
{
    judge_counts(transcript)?;
    judge_coordinates(transcript)?;
    judge_exons(transcript)?;
    judge_frame(transcript)?;
    judge_segments(transcript)?;
    judge_selenocysteine(transcript)
}
