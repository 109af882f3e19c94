// The flank, the short intron and the spill of an interval, for callers outside.
ghost use Rattle.transcript.specs.Transcript.{was_given};
ghost use Rattle.words.specs.Model.{model_of};
ghost use Rattle.answers.specs.Interval.{IntervalAnswered};

use crate::given::{number_of, transcript_of};
use answers::answer_interval;
use words::VareffectModel;

// The answers about [start, end) as 7 numbers: 0, kind and distance of the flank, whether an end lies in a short intron and its
// index, donor and acceptor; or the number of the refusal.
pub fn vareffect_interval(
    chromosome: u16,
    start: u64,
    end: u64,
    model: VareffectModel,
    exon_starts: &[u64],
    exon_ends: &[u64],
    seg_phases: &[u8],
    seg_exons: &[u16],
    seg_starts: &[u64],
    seg_ends: &[u64],
    selenocysteine: &[u64],
    out: &mut [i64; 7],
) -> u8
    ensures { let t = was_given (model_of model) exon_starts exon_ends seg_phases seg_exons seg_starts seg_ends selenocysteine in
        IntervalAnswered t chromosome start end out.old out.new result }
{
    let transcript = transcript_of(
        model,
        exon_starts,
        exon_ends,
        seg_phases,
        seg_exons,
        seg_starts,
        seg_ends,
        selenocysteine,
    );
    let answer = answer_interval(chromosome, start, end, &transcript, out);
    number_of(answer)
}
