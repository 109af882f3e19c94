// A transcript with the fact that it is admitted: what needs the fact asks for the type.
ghost use Rattle.std.specs.Prelude.{◌≡◌};
ghost use Rattle.transcript.specs.Transcript.{transcript_of};
ghost use Rattle.transcript.specs.Admission.{admission};

use super::{Transcript, admit};
use common::refusal::Refusal;

// One pointer: the fact takes no memory.
#[derive(Clone, Copy)]
pub struct Admitted<'a> {
    pub transcript: &'a Transcript<'a>,
    pub ghost admitted: { admission (transcript_of transcript.now) ≡ 0 },
}

impl<'a> Admitted<'a> {
    ghost use Rattle.common.specs.Refusal.{outcome};
    ghost use Rattle.transcript.specs.code.Admitted.{lent_by};

    // The transcript, or the first cause that turns it away.
    pub fn of(transcript: &'a Transcript<'a>) -> Result<Admitted<'a>, Refusal>
        ensures { let t = transcript.now in
            lent_by result ≡ outcome (admission (transcript_of t)) t }
    {
        admit(transcript)?;
        Ok(Admitted { transcript })
    }
}
