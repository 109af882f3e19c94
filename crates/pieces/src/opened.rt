// An opened listing, as it is lent.
ghost use Rattle.std.specs.Prelude.{◌≡◌};
ghost use Rattle.pieces.specs.code.TableIndex.{AllAdmitted, AllAdmitted-prop, table_index};

use crate::TableIndex;
use codon::AllLetters;
use consequence::Window;
use deck::Table;

// The table of a deck whose transcripts are admitted, and its index.
#[derive(Clone, Copy)]
pub(crate) struct OpenedDeck<'a> {
    pub(crate) table: &'a Table,
    pub(crate) index: &'a TableIndex,
    pub ghost admitted: { AllAdmitted table.now } by { AllAdmitted-prop table.now },
    pub ghost indexed: { index.now ≡ table_index table.now },
}

// What the lines of calls are made from: the deck, the window, and the letters of both genetic codes.
#[derive(Clone, Copy)]
pub(crate) struct Sources<'a> {
    pub(crate) deck: OpenedDeck<'a>,
    pub(crate) window: &'a Window<'a>,
    pub(crate) both: &'a AllLetters,
}
