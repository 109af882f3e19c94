// Reading a codon: the coding bases at its padded offsets.
ghost use Rattle.std.specs.Prelude.{◌≡◌, ◌+◌, ◌-◌, ◌<◌, ◌≤◌, length, get_or};
ghost use Rattle.transcript.specs.Orient.{Oriented};
ghost use Rattle.locate.specs.Place.{total_cds_length};
ghost use Rattle.locate.specs.code.Ordered.{in_order};
ghost use Rattle.consequence.specs.Window.{window_of, coding_base};
ghost use Rattle.consequence.specs.Reading.{cds_base, incomplete_at, length_at, fetch_codon};
ghost use Rattle.consequence.specs.code.Segments.{Segments, Held};

use super::Window;
use super::bases::coding_base_at;
use super::segment::{next_segment, segment_near};
use codon::Codon;
use locate::{IndexScalars, Ordered};
use transcript::question::base_of;

// The base at padded offset k, in segment i; a pad place reads N.
fn cds_base(
    pad: u32,
    segments: &Ordered,
    sums: &[u32],
    i: usize,
    window: &Window,
    k: u32,
) -> Option<u8>
    requires segments { Segments (in_order segments.now) sums.now pad }
    requires held { Held sums.now (length segments.now.intervals.starts.now) k i }
    ensures { let base = coding_base segments.now.strand (window_of window.now) in
        ((t : Oriented)
        → t.pad ≡ pad
        → t.segments ≡ in_order segments.now
        → result ≡ cds_base t base k) }
{
    if k < pad {
        return Some(b'N');
    }
    let d = k - sums[i];
    let p = base_of(segments.strand, segments.start(i) + d as u64);
    coding_base_at(segments.strand, window, p)
}

// Whether the padded offset lies in an unfinished last codon; `total` is the padded length of the CDS.
pub(crate) fn is_incomplete_terminal_codon(total: u32, k: u32) -> bool
    ensures { result ≡ incomplete_at total k }
{
    let over = total % 3;
    if over == 0 {
        return false;
    }
    total - over <= k
}

// How many bases the codon of a padded offset has.
fn codon_length(total: u32, k: u32) -> u8
    ensures { result ≡ length_at total k }
{
    if is_incomplete_terminal_codon(total, k) {
        return (total % 3) as u8;
    }
    3
}

fn codon_of(len: u8, first: u8, second: u8, third: u8) -> Codon
    ensures { result ≡ record { len = len; first = first; second = second; third = third } }
{
    Codon {
        len,
        first,
        second,
        third,
    }
}

// The codon that holds padded offset k: its bases, unless one lies outside the window. Segment `near` may hold k; if it does, no search
// is needed. Segments and sums apart, as in read_cds_codon.
// Inlined, as read_cds_codon.
#[inline(always)]
pub(crate) fn fetch_ref_codon(
    scalars: IndexScalars,
    segments: &Ordered,
    sums: &[u32],
    window: &Window,
    near: usize,
    k: u32,
) -> Option<Codon>
    requires segments { Segments (in_order segments.now) sums.now scalars.cds_start_pad }
    requires segment_count_value { scalars.segment_count ≡ length segments.now.intervals.starts.now }
    requires total_cds_length_value { (scalars.total_cds_length ≡ get_or sums.now (length segments.now.intervals.starts.now) 0)
        × (k < scalars.total_cds_length) }
    ensures { let base = coding_base segments.now.strand (window_of window.now) in
        ((t : Oriented)
        → t.pad ≡ scalars.cds_start_pad
        → t.segments ≡ in_order segments.now
        → total_cds_length t ≡ scalars.total_cds_length
        → result ≡ fetch_codon t base k) }
{
    let pad = scalars.cds_start_pad;
    let len = codon_length(scalars.total_cds_length, k);
    let from = k - k % 3;
    let i = segment_near(sums, scalars.segment_count, near, from);
    let x = cds_base(pad, segments, sums, i, window, from)?;
    if len < 2 {
        return Some(codon_of(len, x, 0, 0));
    }
    let j = next_segment(sums, i, from + 1);
    let y = cds_base(pad, segments, sums, j, window, from + 1)?;
    if len < 3 {
        return Some(codon_of(len, x, y, 0));
    }
    let l = next_segment(sums, j, from + 2);
    let z = cds_base(pad, segments, sums, l, window, from + 2)?;
    Some(codon_of(len, x, y, z))
}
