// The transcript at the head of a block.
ghost use Rattle.std.specs.Prelude.{◌≤◌};

use crate::numbers::{byte_at, u16_at, u32_at};
use transcript::{CdsBounds, Strand, TranscriptModel};

// The scalars of a transcript, how many elements its lists have, and where they start; `end` is past the last list.
#[derive(Drop)]
pub(crate) struct Head {
    pub model: TranscriptModel,
    pub exons: usize,
    pub segments: usize,
    pub bases: usize,
    pub segments_at: usize,
    pub bases_at: usize,
    pub end: usize,
}

fn strand_of(mark: u64) -> Strand {
    if mark == 0 {
        Strand::Plus
    } else {
        Strand::Minus
    }
}

// Both bounds where the mark's second bit is set.
fn bounds_of(mark: u64, cds_genomic_start: u64, cds_genomic_end: u64) -> Option<CdsBounds> {
    (mark / 2 % 2 == 1).then_some(CdsBounds {
        cds_genomic_start,
        cds_genomic_end,
    })
}

fn model_of(b: &[u8]) -> TranscriptModel {
    let marks = byte_at(b, 7);
    let cds = bounds_of(marks, u32_at(b, 24), u32_at(b, 28));
    TranscriptModel {
        id: u32_at(b, 0) as u32,
        chromosome: u16_at(b, 4) as u16,
        strand: strand_of(byte_at(b, 6)),
        exon_count: u16_at(b, 8) as u16,
        tx_start: u32_at(b, 16),
        tx_end: u32_at(b, 20),
        cds,
        cds_start_complete: marks % 2 == 1,
    }
}

// Lists longer than the limits are cut to them.
pub(crate) fn head_of(b: &[u8]) -> Head
    ensures { (result.exons ≤ 512)
        × (result.segments ≤ 512)
        × (result.bases ≤ 64)
        × (result.segments_at ≤ 5000)
        × (result.bases_at ≤ 11000)
        × (result.end ≤ 12000) }
{
    let model = model_of(b);
    let exons = u16_at(b, 10).min(512) as usize;
    let segments = u16_at(b, 12).min(512) as usize;
    let bases = u16_at(b, 14).min(64) as usize;
    let segments_at = 32 + exons * 8;
    let bases_at = segments_at + segments * 12;
    Head {
        model,
        exons,
        segments,
        bases,
        segments_at,
        bases_at,
        end: bases_at + bases * 4,
    }
}
