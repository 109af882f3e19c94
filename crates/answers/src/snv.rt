// The answer to a call on an admitted transcript, put as numbers.
ghost use Rattle.std.specs.Prelude.{◌≡◌, ◌<◌, ◌^◌, length};
ghost use Rattle.transcript.specs.Transcript.{transcript_of};
ghost use Rattle.consequence.specs.Window.{window_of};
ghost use Rattle.consequence.specs.Called.{by_number};
ghost use Rattle.words.specs.code.Put.{put_at};
ghost use Rattle.words.specs.code.Near.{capped_words};
ghost use Rattle.answers.specs.Calls.{call_words};

use crate::cds::put_cds_snv;
use crate::lent::Coded;
use consequence::{
    Call, Called, CodedTranscript, CodingBase, CodingPlace, Window, annotate_placed, by_number,
    judge_opening,
};
use footprint::Ranges;
use locate::VariantLocation;
use transcript::question::base_of;
use words::{put_called, put_refusal};

// The answer, or its refusal, as 20 numbers. Not inlined: the calls at coding bases, which need none of it, would take longer.
#[inline(never)]
fn put_placed(out: &mut [i64], called: Called)
    ensures { out.new ≡ put_at out.old 0 (capped_words (by_number called)) }
{
    put_called(out, 0, by_number(called));
}

// The answer as 20 numbers to a call of a list. Most calls are at coding bases, and these need no answer by value.
pub(crate) fn put_snv(ranges: Ranges, window: &Window, call: Call, coded: Coded, out: &mut [i64])
    requires near { ranges.flank < 2 ^ 32 }
    requires room { length out.old ≡ 20 }
    ensures { let w = window_of window.now in
        out.new ≡ call_words ranges (transcript_of coded.entry.indexed.admitted.transcript.now) w call }
{
    let indexed = coded.indexed;
    let opening = judge_opening(indexed.admitted.transcript.model.chromosome, window, call);
    if let Err(refusal) = opening {
        put_refusal(out, 0, u8::from(refusal));
        return;
    }
    let p = base_of(indexed.admitted.transcript.model.strand, call.position);
    let place = indexed.place(ranges, p);
    if let VariantLocation::CdsExon {
        exon_index,
        cds_segment_index,
        cds_offset,
        codon_number,
        codon_position,
        is_splice_region,
    } = place
    {
        put_cds_snv(
            ranges,
            window,
            call.alt_base,
            coded,
            CodingPlace {
                base: CodingBase {
                    offset: cds_offset,
                    number: codon_number,
                    position: codon_position,
                },
                exon: exon_index,
                segment: cds_segment_index,
                mark: is_splice_region,
            },
            p,
            out,
        );
        return;
    }
    let called = annotate_placed(
        ranges,
        CodedTranscript {
            letters: coded.letters,
            transcript: indexed.admitted.transcript,
        },
        window,
        call.alt_base,
        indexed.index.scalars,
        &indexed.index.cumulative_exons,
        &indexed.index.cumulative_cds,
        &indexed.index.selenocysteine_codons,
        place,
        p,
    );
    put_placed(out, called);
}
