// The answer at a place, with its splice spill.
ghost use Rattle.std.specs.Prelude.{◌≡◌, ◌≤◌};
ghost use Rattle.transcript.specs.Limits.{top};
ghost use Rattle.transcript.specs.Transcript.{transcript_of};
ghost use Rattle.transcript.specs.Orient.{oriented};
ghost use Rattle.locate.specs.Place.{locate};
ghost use Rattle.consequence.specs.Window.{window_of, coding_byte};
ghost use Rattle.consequence.specs.Call.{call_table, call_codon};
ghost use Rattle.consequence.specs.code.AtPlace.{place_called, spilled, spill_at};
ghost use Rattle.consequence.specs.code.Prepared.{Prepared};

use super::answer::add_splice_spill;
use super::place::annotate_place;
use super::spill::spill_at;
use super::{Called, CodedTranscript, Window};
use footprint::Ranges;
use locate::{IndexScalars, Ordered, VariantLocation};
use transcript::admission::Admitted;

// `place` is that of p, an oriented base, and `alt_base` is put in there. Refusals 19 and 21.
pub fn annotate_placed(
    ranges: Ranges,
    coded: CodedTranscript,
    window: &Window,
    alt_base: u8,
    scalars: IndexScalars,
    cumulative_exons: &[u32],
    cumulative_cds: &[u32],
    selenocysteine_codons: &[u32; 64],
    place: VariantLocation,
    p: u64,
) -> Called
    requires prepared { Prepared (transcript_of coded.transcript.now) scalars cumulative_exons.now cumulative_cds.now selenocysteine_codons.now }
    requires located { place ≡ locate ranges (oriented (transcript_of coded.transcript.now)) p }
    requires low { p ≤ top }
    ensures { let t = transcript_of coded.entry.transcript.now in
        let w = window_of window.now in
        let x = place_called (call_table t) (oriented t) p (coding_byte t.model.strand alt_base) (call_codon t w) place in
        result ≡ spilled (spill_at (oriented t) p) x }
{
    let result = annotate_place(
        ranges,
        coded,
        window,
        alt_base,
        scalars,
        cumulative_exons,
        cumulative_cds,
        selenocysteine_codons,
        place,
        p,
    )?;
    let spill = spill_at(
        scalars.has_frameshift_intron,
        Ordered::exons(Admitted {
            transcript: coded.transcript,
        }),
        p,
    );
    Ok(add_splice_spill(spill, result))
}
