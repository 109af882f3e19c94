// Reading a deck: its table, and whether its transcripts are admitted.
ghost use Rattle.std.specs.Prelude.{◌≡◌};
ghost use Rattle.deck.specs.Deck.{read_deck};
ghost use Rattle.deck.specs.code.Table.{empty_table, deck_table};

use crate::structure::judge;
use crate::walk::Trail;
use crate::{DeckRefusal, Table};

// The transcripts of a deck as a table, which comes empty, or the refusal: 22, 23, 25, 24, then 1 to 13 in chain order.
pub fn read_deck(d: &[u8], table: &mut Table) -> Result<(), DeckRefusal>
    requires { table.old ≡ empty_table }
    ensures value { result ≡ read_deck d.now }
    ensures table_after { table.new ≡ deck_table d.now }
{
    let mut trail = Trail::start();
    let n = judge(d, &mut trail)?;
    let rows = &trail.order[..n];
    table.store_rows(d, rows);
    table.admit_rows(rows)
}

// Whether a deck is accepted.
pub fn check_deck(d: &[u8]) -> Result<(), DeckRefusal>
    ensures { result ≡ read_deck d.now }
{
    let mut table = Table::empty();
    read_deck(d, &mut table)
}
