// The answer to the question of a place as numbers.
ghost use Rattle.std.specs.Prelude.{◌≡◌};
ghost use Rattle.locate.specs.Numbers.{located_words};
ghost use Rattle.words.specs.code.Put.{put_at};
ghost use Rattle.words.specs.code.Near.{capped_at};

use crate::row::{place_words, row_of};
use crate::words::{put_fitting, refusal_words};
use common::refusal::Refusal;
use locate::VariantLocation;

// An answer as 8 numbers, in any buffer. Where they do not fit nothing is stored. Inlined, so that a place of a list is not laid out twice.
#[inline(always)]
pub fn put_located(out: &mut [i64], at: usize, located: Result<VariantLocation, Refusal>)
    ensures { out.new ≡ put_at out.old at (located_words (capped_at located)) }
{
    match located {
        Ok(place) => put_fitting(out, at, &place_words(row_of(place))),
        Err(refusal) => put_fitting(out, at, &refusal_words::<8>(u8::from(refusal))),
    }
}
