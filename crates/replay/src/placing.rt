// The place of a base.
use crate::numbers::{from, u32_at};
use crate::places::same_place;
use locate::locate_variant;
use transcript::Transcript;

// Whether the base has the place that stands behind it.
pub(crate) fn is_same(b: &[u8], transcript: &Transcript) -> bool {
    let s = u32_at(b, 0);
    match locate_variant(transcript.model.chromosome, s, s + 1, transcript) {
        Ok(place) => same_place(from(b, 4), place),
        Err(_) => false,
    }
}
