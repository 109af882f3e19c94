// The flank, the short intron and the spill of an interval.
use crate::numbers::{byte_at, u16_at, u32_at};
use common::refusal::Refusal;
use footprint::{
    Flank, SpliceSpill, classify_flank, exonic_splice_spill, frameshift_intron_endpoint,
};
use transcript::Transcript;

// The kinds and 65535 are those of the stored list.
fn is_flank(flank: Flank, kind: u64, distance: u64) -> bool {
    match flank {
        Flank::Overlaps => kind == 0 && distance == 0,
        Flank::Upstream(d) => kind == 1 && d == distance,
        Flank::Downstream(d) => kind == 2 && d == distance,
        Flank::Far => kind == 3 && distance == 0,
    }
}

// An intron; 65535 where there is none.
fn is_endpoint(intron: Option<u16>, listed: u64) -> bool {
    intron.map_or(65535, u64::from) == listed
}

fn is_spill(spill: SpliceSpill, listed: u64) -> bool {
    spill.donor == (listed % 2 == 1) && spill.acceptor == (listed / 2 == 1)
}

// Whether the three questions about the interval, none of which is refused, have the answers that stand behind it.
fn compare(b: &[u8], transcript: &Transcript) -> Result<bool, Refusal> {
    let c = transcript.model.chromosome;
    let s = u32_at(b, 0);
    let e = u32_at(b, 4);
    let flank = classify_flank(c, s, e, transcript)?;
    let intron = frameshift_intron_endpoint(c, s, e, transcript)?;
    let spill = exonic_splice_spill(c, s, e, transcript)?;
    Ok(
        is_flank(flank, byte_at(b, 8), u32_at(b, 12))
            && is_endpoint(intron, u16_at(b, 10))
            && is_spill(spill, byte_at(b, 9)),
    )
}

pub(crate) fn is_same(b: &[u8], transcript: &Transcript) -> bool {
    compare(b, transcript).unwrap_or(false)
}
