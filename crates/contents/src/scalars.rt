// The scalars of a transcript as numbers.
ghost use Rattle.std.specs.Prelude.{◌≡◌};
ghost use Rattle.common.specs.Stored.{stored};
ghost use Rattle.contents.specs.Contents.{minus_flag, scalar_words};

use crate::lists::store;
use transcript::limits::{end_or_zero, start_or_zero};
use transcript::{Strand, TranscriptModel};

fn minus_flag(strand: Strand) -> u64
    ensures { result ≡ minus_flag strand }
{
    u64::from(matches!(strand, Strand::Minus))
}

// The scalars, with how many segments and selenocysteine bases there are.
pub(crate) fn store_scalars(
    out: &mut [u64; 12],
    model: TranscriptModel,
    segments: usize,
    bases: usize,
)
    ensures { out.new ≡ stored out.old 0 (scalar_words model segments bases) }
{
    let words = [
        u64::from(model.id),
        u64::from(model.chromosome),
        minus_flag(model.strand),
        u64::from(model.exon_count),
        model.tx_start,
        model.tx_end,
        u64::from(model.cds.is_some()),
        start_or_zero(model.cds),
        end_or_zero(model.cds),
        u64::from(model.cds_start_complete),
        segments as u64,
        bases as u64,
    ];
    store(out, &words);
}
