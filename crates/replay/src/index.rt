// The admission and the index of a transcript.
ghost use Rattle.std.specs.Prelude.{◌≤◌};

use crate::numbers::{byte_at, u16_at, u32_at};
use crate::sums::{all_in, all_listed, same_segments, same_sums};
use locate::{IndexScalars, LocateIndex};
use transcript::Transcript;

// The exon of an index or 65535 where there is no CDS.
fn exon_or_none(coding: bool, exon: u16) -> u64 {
    if coding { u64::from(exon) } else { 65535 }
}

// Whether the scalars are those listed.
fn same_scalars(listed: &[u8], s: IndexScalars, coding: bool) -> bool {
    u64::from(s.cds_start_pad) == byte_at(listed, 1)
        && s.has_frameshift_intron == (byte_at(listed, 2) == 1)
        && exon_or_none(coding, s.cds_start_exon_idx) == u16_at(listed, 4)
        && exon_or_none(coding, s.cds_end_exon_idx) == u16_at(listed, 6)
        && u64::from(s.utr5_exonic_len) == u32_at(listed, 8)
}

// Whether the index of a transcript of so many exons and segments is the one listed.
fn same_index(listed: &[u8], index: &LocateIndex, exons: usize, segments: usize) -> bool
    requires { (exons ≤ 512) × (segments ≤ 512) }
{
    let s = index.scalars;
    let coding = 0 < segments;
    let count = s.selenocysteine_count;
    let codons_listed = u16_at(listed, 12) as usize;
    let exons_at = 16 + 4 * (segments + 1);
    let codons_at = exons_at + 2 * exons;
    if 64 < count || 64 < codons_listed || listed.len() != codons_at + 4 * codons_listed {
        return false;
    }
    let first = u64::from(s.cds_start_exon_idx);
    let last = u64::from(s.cds_end_exon_idx);
    let numbers = &index.selenocysteine_codons[..count];
    let codons = &listed[codons_at..];
    same_scalars(listed, s, coding)
        && same_sums(&listed[16..], &index.cumulative_cds[..=segments])
        && same_segments(&listed[exons_at..codons_at], coding, first, last)
        && all_in(codons, numbers)
        && all_listed(codons, numbers)
}

// Whether the transcript, whose lists were cut to the limits, has the answer listed.
pub(crate) fn is_same(listed: &[u8], transcript: &Transcript) -> bool {
    let exons = transcript.exons.starts.len().min(512);
    let segments = transcript.segments.bases.starts.len().min(512);
    let number = byte_at(listed, 0);
    match LocateIndex::build(transcript) {
        Ok(index) => number == 0 && same_index(listed, &index, exons, segments),
        Err(refusal) => u64::from(u8::from(refusal)) == number && listed.len() == 4,
    }
}
