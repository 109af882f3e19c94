// The lists of a transcript as parts of the columns. Rows that are not in their order, or behind a column's end, make a shorter part.
ghost use Rattle.std.specs.Prelude.{◌≡◌};
ghost use Rattle.deck.specs.code.Table.{part, IsExonPart};

use crate::Table;
use crate::rows::Rows;

// The elements from one row up to another.
fn part<T>(column: &[T; 4096], from: usize, to: usize) -> &[T]
    ensures { result.now ≡ part from to column.now }
{
    let end = to.min(4096);
    let start = from.min(end);
    let all = &column[..];
    &all[start..end]
}

// The exons' part of a column.
fn exon_part(column: &[u64; 4096], rows: Rows) -> &[u64]
    ensures { IsExonPart rows column.now result.now }
{
    part(column, rows.row.saturating_add(1), rows.exons)
}

impl Table {
    pub fn exon_starts(&self, rows: Rows) -> &[u64]
        ensures { IsExonPart rows self.now.starts result.now }
    {
        exon_part(&self.starts, rows)
    }

    pub fn exon_ends(&self, rows: Rows) -> &[u64]
        ensures { IsExonPart rows self.now.ends result.now }
    {
        exon_part(&self.ends, rows)
    }

    pub fn segment_phases(&self, rows: Rows) -> &[u8]
        ensures { result.now ≡ part rows.bounds rows.segments self.now.marks }
    {
        part(&self.marks, rows.bounds, rows.segments)
    }

    // The indexes of the segments' exons.
    pub fn segment_exons(&self, rows: Rows) -> &[u16]
        ensures { result.now ≡ part rows.bounds rows.segments self.now.numbers }
    {
        part(&self.numbers, rows.bounds, rows.segments)
    }

    pub fn segment_starts(&self, rows: Rows) -> &[u64]
        ensures { result.now ≡ part rows.bounds rows.segments self.now.starts }
    {
        part(&self.starts, rows.bounds, rows.segments)
    }

    pub fn segment_ends(&self, rows: Rows) -> &[u64]
        ensures { result.now ≡ part rows.bounds rows.segments self.now.ends }
    {
        part(&self.ends, rows.bounds, rows.segments)
    }

    // The selenocysteine bases.
    pub fn bases(&self, rows: Rows) -> &[u64]
        ensures { result.now ≡ part rows.segments rows.bases self.now.starts }
    {
        part(&self.starts, rows.segments, rows.bases)
    }
}
