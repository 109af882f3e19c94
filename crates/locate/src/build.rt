// The index of a transcript that is admitted.
ghost use Rattle.std.specs.Prelude.{◌≡◌};
ghost use Rattle.transcript.specs.Transcript.{transcript_of};
ghost use Rattle.locate.specs.Index.{indexed};

use super::LocateIndex;
use super::index::index_of;
use common::refusal::Refusal;
use transcript::Transcript;
use transcript::admission::Admitted;

impl LocateIndex {
    pub fn build(transcript: &Transcript) -> Result<LocateIndex, Refusal>
        ensures { result ≡ indexed (transcript_of transcript.now) }
    {
        let admitted = Admitted::of(transcript)?;
        Ok(index_of(admitted))
    }
}
