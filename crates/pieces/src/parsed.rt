// The lines of one line of the calls, put into a lent buffer.
ghost use Rattle.std.specs.Prelude.{◌≡◌, length, drop};
ghost use Rattle.consequence.specs.Window.{window_of};
ghost use Rattle.deck.specs.code.Table.{table_transcripts};
ghost use Rattle.listing.specs.Entries.{call_entries};
ghost use Rattle.listing.specs.Pieces.{call_steps, pack, piece_to};
ghost use Rattle.pieces.specs.code.Filling.{filled_as};

use crate::called::fill_called;
use crate::fill::fill_malformed;
use crate::opened::Sources;
use consequence::Call;
use listing::{Cursor, Piece};

// The lines of a parsed line of the calls from the cursor on. Three functions take number, cursor and out: a struct of them would be
// made for each line of the calls, and taken apart at once.
pub(crate) fn fill_parsed(
    sources: Sources,
    parsed: Option<Call>,
    number: u64,
    cursor: Cursor,
    out: &mut [u8],
) -> Piece
    ensures { let ts = table_transcripts sources.entry.deck.table.now in
        let w = window_of sources.entry.window.now in
        let es = drop cursor.entry (call_entries ts w number parsed) in
        let p = pack (length out.old) (call_steps cursor.at cursor.entry es) in
        (result ≡ filled_as p) × (out.new ≡ piece_to out.old p) }
{
    match parsed {
        Some(call) => fill_called(sources, call, number, cursor, out),
        None => fill_malformed(number, cursor, out),
    }
}
