// The places of many bases of one transcript.
ghost use Rattle.std.specs.Prelude.{◌≡◌, length, ◌*◌, ◌<◌, ◌^◌};
ghost use Rattle.common.specs.Refusal.{outcome_number};
ghost use Rattle.transcript.specs.Transcript.{transcript_of};
ghost use Rattle.answers.specs.Lists.{places_words, PlacesAnswered};

use crate::lent::Indexed;
use crate::position::locate_position;
use common::refusal::Refusal;
use footprint::{Ranges, source_ranges};
use locate::index_of;
use transcript::Transcript;
use transcript::admission::Admitted;
use words::{PLACE_WORDS, put_located};

// The places of the positions, one behind the other. By index, as put_calls. Not inlined: the caller's index would be copied.
#[inline(never)]
fn put_places(ranges: Ranges, chromosome: u16, positions: &[u64], indexed: Indexed, out: &mut [i64])
    requires near { ranges.flank < 2 ^ 32 }
    requires fits { length out.old ≡ 8 * length positions.now }
    ensures { out.new ≡ places_words ranges (transcript_of indexed.entry.admitted.transcript.now) chromosome positions.now }
{
    for i in 0..positions.len() {
        let located = locate_position(ranges, chromosome, positions[i], indexed);
        put_located(out, PLACE_WORDS * i, located);
    }
}

// The same of a transcript that may be refused, with a buffer that may be too short or too long.
pub fn answer_places(
    chromosome: u16,
    positions: &[u64],
    transcript: &Transcript,
    out: &mut [i64],
) -> Result<(), Refusal>
    ensures { let t = transcript_of transcript.now in
        PlacesAnswered t chromosome positions.now out.old out.new (outcome_number result) }
{
    let n = out.len();
    if n % PLACE_WORDS != 0 || n / PLACE_WORDS != positions.len() {
        return Err(Refusal::Counts);
    }
    let admitted = Admitted::of(transcript)?;
    let index = index_of(admitted);
    put_places(
        source_ranges(),
        chromosome,
        positions,
        Indexed {
            admitted,
            index: &index,
        },
        out,
    );
    Ok(())
}
