// Cumulative lengths of intervals.
ghost use Rattle.std.specs.Prelude.{◌≡◌, false, map, ◌+◌, ◌≤◌, ◌<◌, length, replicate};
ghost use Rattle.std.proofs.lemmas.List.Edits.{sets};
ghost use Rattle.common.specs.Lists.{any};
ghost use Rattle.transcript.specs.Limits.{top};
ghost use Rattle.transcript.specs.Transcript.{transcript_of};
ghost use Rattle.transcript.specs.Orient.{oriented};
ghost use Rattle.transcript.specs.Admission.{bad_exon};
ghost use Rattle.locate.specs.Index.{cumulative, locate_index};
ghost use Rattle.transcript.specs.Bases.{sum};
ghost use Rattle.transcript.specs.code.Lent.{exon_size, exons_in};

use transcript::Intervals;
use transcript::admission::Admitted;
use transcript::order::pad_of;

// The lengths of the intervals, summed up from `first` on, stored from a place on. They need good edges, and no order, so `Ordered` would
// ask more of a caller.
pub fn store_sums(sums: &mut [u32], at: usize, intervals: Intervals, first: u32)
    requires even { (length intervals.starts.now ≡ length intervals.ends.now) × (at + length intervals.starts.now < length sums.old) }
    requires good_edges { any bad_exon (exons_in intervals) ≡ false }
    requires low { first + sum (map exon_size (exons_in intervals)) ≤ 2 + top }
    ensures { let lengths = map exon_size (exons_in intervals.entry) in
        sums.new ≡ sets sums.old at (cumulative first lengths) }
{
    let mut acc = first;
    let count = intervals.starts.len();
    for i in 0..count {
        sums[at + i] = acc;
        acc += (intervals.ends[i] - intervals.starts[i]) as u32;
    }
    sums[at + count] = acc;
}

// The cumulative lengths of the exons and of the CDS of an admitted transcript, stored into arrays of zeros: before
// there is an index.
pub fn sum_up(
    cumulative_exons: &mut [u32; 513],
    cumulative_cds: &mut [u32; 513],
    admitted: Admitted,
)
    requires zeros { (cumulative_exons.old ≡ replicate 513 0) × (cumulative_cds.old ≡ replicate 513 0) }
    ensures sums { let t = transcript_of admitted.entry.transcript.now in
        let x = locate_index (oriented t) in
        (cumulative_exons.new ≡ x.cumulative_exons) × (cumulative_cds.new ≡ x.cumulative_cds) }
    ensures lengths { (length cumulative_exons.new ≡ 513) × (length cumulative_cds.new ≡ 513) }
{
    let transcript = admitted.transcript;
    let pad = pad_of(transcript.segments.phases) as u32;
    store_sums(cumulative_exons, 0, transcript.exons, 0);
    store_sums(cumulative_cds, 0, transcript.segments.bases, pad);
}
