// A place and a flank as text.
use crate::text::{number, print, refused, signed};
use common::refusal::Refusal;
use footprint::Flank;
use lines::place_name;
use locate::VariantLocation;

// A name with a count.
fn counted(rt: &impl Print, name: &[u8], n: u64) {
    print(rt, name);
    number(rt, n);
}

// A coding base: its offset, its codon, its place in the codon, and its mark.
fn coding_base(rt: &impl Print, offset: u32, codon: u32, position: u8, is_splice_region: bool) {
    number(rt, offset as u64);
    number(rt, codon as u64);
    number(rt, position as u64);
    if is_splice_region {
        print(rt, b" mark");
    }
}

// The signed distance or offset of a place, if document 01 says one.
fn show_signed(rt: &impl Print, place: VariantLocation) {
    match place {
        VariantLocation::FivePrimeUtr {
            offset_from_cds_start,
            ..
        } => signed(rt, offset_from_cds_start),
        VariantLocation::ThreePrimeUtr {
            offset_from_cds_end,
            ..
        } => signed(rt, offset_from_cds_end),
        VariantLocation::SpliceRegion { distance, .. } => signed(rt, distance),
        VariantLocation::Intron {
            distance_to_nearest_exon,
            ..
        } => signed(rt, distance_to_nearest_exon),
        VariantLocation::FrameshiftIntron {
            distance_to_nearest_exon,
            ..
        } => signed(rt, distance_to_nearest_exon),
        _ => {}
    }
}

// The place's name with what document 01 says of it.
pub(crate) fn show_place(rt: &impl Print, place: VariantLocation) {
    print(rt, place_name(place));
    match place {
        VariantLocation::Upstream { distance } => number(rt, distance),
        VariantLocation::Downstream { distance } => number(rt, distance),
        VariantLocation::SpliceDonor { offset, .. } => number(rt, offset as u64),
        VariantLocation::SpliceAcceptor { offset, .. } => number(rt, offset as u64),
        VariantLocation::CdsExon {
            cds_offset,
            codon_number,
            codon_position,
            is_splice_region,
            ..
        } => coding_base(
            rt,
            cds_offset.0,
            codon_number,
            codon_position,
            is_splice_region,
        ),
        _ => show_signed(rt, place),
    }
}

// The flank's name with its distance, or the refusal.
pub(crate) fn show_flank(rt: &impl Print, flank: Result<Flank, Refusal>) {
    match flank {
        Ok(Flank::Overlaps) => print(rt, b"Overlaps"),
        Ok(Flank::Upstream(d)) => counted(rt, b"Upstream", d),
        Ok(Flank::Downstream(d)) => counted(rt, b"Downstream", d),
        Ok(Flank::Far) => print(rt, b"Far"),
        Err(refusal) => refused(rt, refusal),
    }
}
