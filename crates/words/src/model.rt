// A transcript's scalars from what is handed in.
ghost use Rattle.std.specs.Prelude.{◌≡◌};
ghost use Rattle.words.specs.Model.{strand_of, bounds_of, model_of};

use super::VareffectModel;
use transcript::{CdsBounds, Strand, TranscriptModel};

fn strand_of(minus: bool) -> Strand
    ensures { result ≡ strand_of minus }
{
    if minus { Strand::Minus } else { Strand::Plus }
}

fn bounds_of(has_cds: bool, start: u64, end: u64) -> Option<CdsBounds>
    ensures { result ≡ bounds_of has_cds start end }
{
    has_cds.then_some(CdsBounds {
        cds_genomic_start: start,
        cds_genomic_end: end,
    })
}

// No `From`, as call_of.
pub fn model_of(model: VareffectModel) -> TranscriptModel
    ensures { result ≡ model_of model }
{
    TranscriptModel {
        id: model.id,
        chromosome: model.chromosome,
        strand: strand_of(model.minus),
        exon_count: model.exon_count,
        tx_start: model.tx_start,
        tx_end: model.tx_end,
        cds: bounds_of(model.has_cds, model.cds_start, model.cds_end),
        cds_start_complete: model.start_complete,
    }
}
