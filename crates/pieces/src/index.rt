// The index of a table.
ghost use Rattle.std.specs.Prelude.{◌≡◌};
ghost use Rattle.pieces.specs.code.TableIndex.{AllAdmitted, empty_index, table_index};

use crate::row::index_row;
use crate::{IndexEntry, TableIndex};
use deck::Table;

impl TableIndex {
    #[tactic(auto, unfolding(crate::specs::code::TableIndex::empty_index))]
    pub fn empty() -> TableIndex
        ensures { result ≡ empty_index }
    {
        TableIndex {
            count: 0,
            entries: [IndexEntry {
                row: 0,
                exons: 0,
                bounds: 0,
                segments: 0,
                bases: 0,
                short: false,
            }; 4096],
            sums: [0; 4096],
        }
    }
}

// What is computed once for the transcripts of a table, which are admitted, in an empty index.
pub(crate) fn index_table(table: &Table, index: &mut TableIndex)
    requires all_admitted { AllAdmitted table.now }
    requires index_before { index.old ≡ empty_index }
    ensures { index.new ≡ table_index table.now }
{
    for rows in table.transcripts() {
        let place = index.count;
        let short = index_row(table, rows, &mut index.sums);
        index.entries[place] = IndexEntry::of(rows, short);
        index.count = place + 1;
    }
}
