// The answer to a call at a coding base, put as numbers.
ghost use Rattle.std.specs.Prelude.{◌≡◌, ◌≤◌, length};
ghost use Rattle.transcript.specs.Limits.{top};
ghost use Rattle.transcript.specs.Transcript.{transcript_of};
ghost use Rattle.transcript.specs.Orient.{oriented};
ghost use Rattle.locate.specs.Place.{locate};
ghost use Rattle.consequence.specs.Region.{cds_exon};
ghost use Rattle.consequence.specs.Window.{window_of, coding_byte};
ghost use Rattle.consequence.specs.Call.{call_table, call_codon};
ghost use Rattle.consequence.specs.Numbers.{called_words};
ghost use Rattle.consequence.specs.code.AtPlace.{place_called, spilled, spill_at};

use crate::lent::Coded;
use common::refusal::Refusal;
use consequence::{CodingPlace, Window, read_cds_codon, spill_at, with_mark};
use footprint::Ranges;
use locate::{Ordered, cdna_position};
use terms::spill_terms;
use words::{put_coding, put_refusal};

// p, an oriented base, is at that coding place, and `alt_base` is put in there. The answer as 20 numbers; 21 where the codon is not all
// in the window.
pub(crate) fn put_cds_snv(
    ranges: Ranges,
    window: &Window,
    alt_base: u8,
    coded: Coded,
    place: CodingPlace,
    p: u64,
    out: &mut [i64],
)
    requires located { cds_exon place ≡ locate ranges (oriented (transcript_of coded.indexed.admitted.transcript.now)) p }
    requires low { p ≤ top }
    requires room { length out.old ≡ 20 }
    ensures { let t = transcript_of coded.entry.indexed.admitted.transcript.now in
        let codon = call_codon t (window_of window.now) in
        let x = place_called (call_table t) (oriented t) p (coding_byte t.model.strand alt_base) codon (cds_exon place) in
        out.new ≡ called_words (spilled (spill_at (oriented t) p) x) }
{
    let indexed = coded.indexed;
    let scalars = indexed.index.scalars;
    let read = read_cds_codon(
        coded.letters,
        scalars,
        indexed.admitted.transcript.model.cds_start_complete,
        &Ordered::segments(indexed.admitted),
        &indexed.index.cumulative_cds,
        &indexed.index.selenocysteine_codons,
        window,
        alt_base,
        place.segment as usize,
        place.base,
    );
    let Some(columns) = read else {
        put_refusal(out, 0, u8::from(Refusal::CodonOutsideWindow));
        return;
    };
    let spill = spill_at(
        scalars.has_frameshift_intron,
        Ordered::exons(indexed.admitted),
        p,
    );
    let marked = with_mark(columns.terms, place.mark);
    put_coding(
        out,
        0,
        indexed.admitted.transcript.model.exon_count,
        place,
        cdna_position(
            scalars.utr5_exonic_len,
            scalars.cds_start_pad,
            place.base.offset,
        ),
        columns,
        spill_terms(spill.donor, spill.acceptor, marked),
    );
}
