// Whether the transcripts of a table are admitted.
ghost use Rattle.std.specs.Prelude.{◌≡◌, get_or};
ghost use Rattle.transcript.specs.Transcript.{transcript_of};
ghost use Rattle.deck.specs.code.Table.{transcript_in, admit_table};

use crate::rows::Rows;
use crate::{DeckRefusal, Table};
use transcript::{CdsSegments, Intervals, Transcript, admit};

// The record at a row, 0 behind the last.
fn record_at(order: &[u16], k: usize) -> u16
    ensures { result ≡ get_or order.now k 0 }
{
    order.get(k).copied().unwrap_or(0)
}

impl Table {
    // The transcript at its rows: its lists are parts of the columns.
    #[tactic(auto, unfolding(crate::specs::code::Table::transcript_in))]
    pub fn transcript(&self, rows: Rows) -> Transcript
        ensures { transcript_of result ≡ transcript_in self.now rows }
    {
        Transcript {
            model: self.model_in(rows),
            exons: Intervals {
                starts: self.exon_starts(rows),
                ends: self.exon_ends(rows),
            },
            segments: CdsSegments {
                phases: self.segment_phases(rows),
                exon_indexes: self.segment_exons(rows),
                bases: Intervals {
                    starts: self.segment_starts(rows),
                    ends: self.segment_ends(rows),
                },
            },
            selenocysteine: self.bases(rows),
        }
    }

    // The first refused transcript in chain order, with its record.
    #[tactic(auto, unfolding(crate::specs::code::Table::admit_rows))]
    pub(crate) fn admit_rows(&self, order: &[u16]) -> Result<(), DeckRefusal>
        ensures { result ≡ admit_table order.now self.now }
    {
        for rows in self.transcripts() {
            if let Err(refusal) = admit(&self.transcript(rows)) {
                return Err(DeckRefusal {
                    refusal,
                    record: record_at(order, rows.row),
                });
            }
        }
        Ok(())
    }
}
