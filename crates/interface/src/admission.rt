// Whether a transcript is admitted.
ghost use Rattle.std.specs.Prelude.{◌≡◌};
ghost use Rattle.transcript.specs.Transcript.{was_given};
ghost use Rattle.transcript.specs.Admission.{admission_of};
ghost use Rattle.common.specs.Refusal.{outcome_number};
ghost use Rattle.words.specs.Model.{model_of};

use crate::given::{number_of, transcript_of};
use transcript::admit;
use words::VareffectModel;

// The number of the transcript's refusal, 1 to 13, or 0.
pub fn vareffect_admit(
    model: VareffectModel,
    exon_starts: &[u64],
    exon_ends: &[u64],
    seg_phases: &[u8],
    seg_exons: &[u16],
    seg_starts: &[u64],
    seg_ends: &[u64],
    selenocysteine: &[u64],
) -> u8
    ensures { let t = was_given (model_of model) exon_starts exon_ends seg_phases seg_exons seg_starts seg_ends selenocysteine in
        result ≡ outcome_number (admission_of t) }
{
    let transcript = transcript_of(
        model,
        exon_starts,
        exon_ends,
        seg_phases,
        seg_exons,
        seg_starts,
        seg_ends,
        selenocysteine,
    );
    number_of(admit(&transcript))
}
