// The place of a base and the places of many, for callers outside.
ghost use Rattle.transcript.specs.Transcript.{was_given};
ghost use Rattle.words.specs.Model.{model_of};
ghost use Rattle.answers.specs.Left.{PlaceAnswered};
ghost use Rattle.answers.specs.Lists.{PlacesAnswered};

use crate::given::{number_of, transcript_of};
use answers::{answer_place, answer_places};
use words::VareffectModel;

// The place of [start, end) as 8 numbers, or the number of the refusal.
pub fn vareffect_place(
    chromosome: u16,
    start: u64,
    end: u64,
    model: VareffectModel,
    exon_starts: &[u64],
    exon_ends: &[u64],
    seg_phases: &[u8],
    seg_exons: &[u16],
    seg_starts: &[u64],
    seg_ends: &[u64],
    selenocysteine: &[u64],
    out: &mut [i64; 8],
) -> u8
    ensures { let t = was_given (model_of model) exon_starts exon_ends seg_phases seg_exons seg_starts seg_ends selenocysteine in
        PlaceAnswered t chromosome start end out.old out.new result }
{
    let transcript = transcript_of(
        model,
        exon_starts,
        exon_ends,
        seg_phases,
        seg_exons,
        seg_starts,
        seg_ends,
        selenocysteine,
    );
    let answer = answer_place(chromosome, start, end, &transcript, out);
    number_of(answer)
}

// For each position p the place of [p, p + 1) as 8 numbers; 1 where `out` does not have 8 elements for each.
pub fn vareffect_places(
    chromosome: u16,
    positions: &[u64],
    model: VareffectModel,
    exon_starts: &[u64],
    exon_ends: &[u64],
    seg_phases: &[u8],
    seg_exons: &[u16],
    seg_starts: &[u64],
    seg_ends: &[u64],
    selenocysteine: &[u64],
    out: &mut [i64],
) -> u8
    ensures { let t = was_given (model_of model) exon_starts exon_ends seg_phases seg_exons seg_starts seg_ends selenocysteine in
        PlacesAnswered t chromosome positions.now out.old out.new result }
{
    let transcript = transcript_of(
        model,
        exon_starts,
        exon_ends,
        seg_phases,
        seg_exons,
        seg_starts,
        seg_ends,
        selenocysteine,
    );
    let answer = answer_places(chromosome, positions, &transcript, out);
    number_of(answer)
}
