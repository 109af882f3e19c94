// The columns of a table, from records. A table comes as zeros, and stays so behind the records.
ghost use Rattle.std.specs.Prelude.{◌+◌, ◌*◌, ◌≤◌, ◌≡◌, length};
ghost use Rattle.deck.specs.code.Reached.{InDeck};
ghost use Rattle.deck.specs.code.Table.{number_of, table_of, empty_table};

use crate::Table;
use crate::kind::Kind;
use crate::record::DeckRecord;

// The chromosome of a transcript, the exon index of a segment.
fn number_of(r: DeckRecord) -> u16
    ensures { result ≡ number_of r.entry.deck.now r.entry.i }
{
    if r.kind() == u8::from(Kind::Transcript) {
        r.u16_at(8)
    } else {
        r.u16_at(12)
    }
}

impl Table {
    pub fn empty() -> Table
        ensures { result ≡ empty_table }
    {
        Table {
            kinds: [0; 4096],
            marks: [0; 4096],
            ids: [0; 4096],
            numbers: [0; 4096],
            starts: [0; 4096],
            ends: [0; 4096],
        }
    }

    // The fields of the records in the walk's order.
    pub(crate) fn store_rows(&mut self, d: &[u8], order: &[u16])
        requires few { length order.now ≤ 4096 }
        requires in_deck { InDeck d.now order.now }
        requires empty { self.old ≡ empty_table }
        ensures { self.new ≡ table_of d.now order.now }
    {
        for (k, i) in order.iter().enumerate() {
            let record = DeckRecord {
                deck: d,
                i: *i as usize,
            };
            self.kinds[k] = record.kind();
            self.marks[k] = record.mark();
            self.ids[k] = record.u32_at(4);
            self.numbers[k] = number_of(record);
            self.starts[k] = u64::from(record.u32_at(4));
            self.ends[k] = u64::from(record.u32_at(8));
        }
    }
}
