// Transcripts in the table of a deck: rows one behind the other.
ghost use Rattle.std.specs.Prelude.{min, ◌≡◌, length};
ghost use Rattle.transcript.specs.Transcript.{exons_of};
ghost use Rattle.deck.specs.Kind.{kind_number};
ghost use Rattle.deck.specs.Deck.{strand_of, start_complete, tx_bounds};
ghost use Rattle.deck.specs.code.Table.{run_end, bounds_end, rows_at, transcript_rows_at, bounds_between, model_in};

use crate::Table;
use crate::kind::Kind;
use transcript::{CdsBounds, Exon, Strand, TranscriptModel};

// The row of a transcript, and where its exons, its bounds, its segments and its selenocysteine bases end.
#[derive(Clone, Copy)]
pub struct Rows {
    pub row: usize,
    pub exons: usize,
    pub bounds: usize,
    pub segments: usize,
    pub bases: usize,
}

fn strand_of(mark: u8) -> Strand
    ensures { result ≡ strand_of mark }
{
    if mark % 2 == 1 {
        Strand::Minus
    } else {
        Strand::Plus
    }
}

fn start_complete(mark: u8) -> bool
    ensures { result ≡ start_complete mark }
{
    mark / 2 % 2 == 1
}

// The outer edges of the first and last exon, zeros where there is none.
fn tx_bounds(starts: &[u64], ends: &[u64], strand: Strand) -> Exon
    requires { length starts.now ≡ length ends.now }
    ensures { result ≡ tx_bounds strand (exons_of starts.now ends.now) }
{
    match strand {
        Strand::Plus => Exon {
            genomic_start: starts.first().copied().unwrap_or(0),
            genomic_end: ends.last().copied().unwrap_or(0),
        },
        Strand::Minus => Exon {
            genomic_start: starts.last().copied().unwrap_or(0),
            genomic_end: ends.first().copied().unwrap_or(0),
        },
    }
}

impl Table {
    // The row behind those of a kind, from a row on.
    #[tactic(auto, using(crate::proofs::Lowest::lowest_on, crate::proofs::Lowest::lowest_here, crate::proofs::Lowest::lowest_none))]
    fn run_end(&self, kind: Kind, from: usize) -> usize
        ensures { result ≡ run_end self.now.kinds (kind_number kind) from }
    {
        let byte = u8::from(kind);
        for i in from..4096 {
            if self.kinds[i] != byte {
                return i;
            }
        }
        from.max(4096)
    }

    // The row behind the bounds that may stand at a row.
    fn bounds_end(&self, at: usize) -> usize
        ensures { result ≡ bounds_end self.now.kinds at }
    {
        if at < 4096 && self.kinds[at] == u8::from(Kind::Bounds) {
            at + 1
        } else {
            at
        }
    }

    // The rows of the transcript at row k, which is counted as 4096 where it lies behind the table.
    #[tactic(auto, unfolding(crate::specs::code::Table::rows_at))]
    pub fn rows_at(&self, k: usize) -> Rows
        ensures { result ≡ rows_at self.now.kinds (min k 4096) }
    {
        let row = k.min(4096);
        let exons = self.run_end(Kind::Exon, row + 1);
        let bounds = self.bounds_end(exons);
        let segments = self.run_end(Kind::Segment, bounds);
        let bases = self.run_end(Kind::Selenocysteine, segments);
        Rows {
            row,
            exons,
            bounds,
            segments,
            bases,
        }
    }

    // The rows of the transcript at row k, if one stands there.
    pub fn transcript_rows_at(&self, k: usize) -> Option<Rows>
        ensures { result ≡ transcript_rows_at self.now.kinds k }
    {
        (k < 4096 && self.kinds[k] == u8::from(Kind::Transcript)).then(|| self.rows_at(k))
    }

    // The bounds behind the exons, if any stand there.
    fn bounds_in(&self, rows: Rows) -> Option<CdsBounds>
        ensures { result ≡ bounds_between self.now.starts self.now.ends rows.exons rows.bounds }
    {
        (rows.bounds != rows.exons).then_some(CdsBounds {
            cds_genomic_start: self.starts.get(rows.exons).copied().unwrap_or(0),
            cds_genomic_end: self.ends.get(rows.exons).copied().unwrap_or(0),
        })
    }

    // The scalars of the transcript at its rows.
    #[tactic(auto, unfolding(crate::specs::code::Table::model_in))]
    pub fn model_in(&self, rows: Rows) -> TranscriptModel
        ensures { result ≡ model_in self.now rows }
    {
        let mark = self.marks.get(rows.row).copied().unwrap_or(0);
        let strand = strand_of(mark);
        let exon_starts = self.exon_starts(rows);
        let edges = tx_bounds(exon_starts, self.exon_ends(rows), strand);
        TranscriptModel {
            id: self.ids.get(rows.row).copied().unwrap_or(0),
            chromosome: self.numbers.get(rows.row).copied().unwrap_or(0),
            strand,
            exon_count: exon_starts.len() as u16,
            tx_start: edges.genomic_start,
            tx_end: edges.genomic_end,
            cds: self.bounds_in(rows),
            cds_start_complete: start_complete(mark),
        }
    }
}
