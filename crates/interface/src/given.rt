// What is handed in and given back across the interface: a transcript, list by list, since C lends pointer and length and has no struct of
// slices, a window, and the number of a refusal.
ghost use Rattle.std.specs.Prelude.{◌≡◌};
ghost use Rattle.common.specs.Refusal.{outcome_number};
ghost use Rattle.transcript.specs.Transcript.{transcript_of, was_given};
ghost use Rattle.consequence.specs.Window.{window_of};
ghost use Rattle.words.specs.Model.{model_of};
ghost use Rattle.words.specs.Call.{window_of as window_given};

use common::refusal::Refusal;
use consequence::Window;
use transcript::{CdsSegments, Intervals, Transcript};
use words::{VareffectModel, VareffectWindow, model_of};

pub(crate) fn transcript_of<'a>(
    model: VareffectModel,
    exon_starts: &'a [u64],
    exon_ends: &'a [u64],
    seg_phases: &'a [u8],
    seg_exons: &'a [u16],
    seg_starts: &'a [u64],
    seg_ends: &'a [u64],
    selenocysteine: &'a [u64],
) -> Transcript<'a>
    ensures { let t = was_given (model_of model) exon_starts exon_ends seg_phases seg_exons seg_starts seg_ends selenocysteine in
        transcript_of result ≡ t }
{
    Transcript {
        model: model_of(model),
        exons: Intervals {
            starts: exon_starts,
            ends: exon_ends,
        },
        segments: CdsSegments {
            phases: seg_phases,
            exon_indexes: seg_exons,
            bases: Intervals {
                starts: seg_starts,
                ends: seg_ends,
            },
        },
        selenocysteine,
    }
}

pub(crate) fn window_of<'a>(window: VareffectWindow, bases: &'a [u8]) -> Window<'a>
    ensures { window_of result ≡ window_given window bases }
{
    Window {
        chromosome: window.chromosome,
        first: window.first,
        bytes: bases,
    }
}

// The refusal's number, 0 for an answer: what callers in C get.
pub(crate) fn number_of(answer: Result<(), Refusal>) -> u8
    ensures { result ≡ outcome_number answer }
{
    answer.err().map_or(0, u8::from)
}
