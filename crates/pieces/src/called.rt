// The lines of one call, put into a lent buffer.
ghost use Rattle.std.specs.Prelude.{◌≡◌, ◌<◌, length, drop};
ghost use Rattle.consequence.specs.Window.{window_of};
ghost use Rattle.deck.specs.code.Table.{transcript_in, table_transcripts};
ghost use Rattle.lines.specs.Line.{write_answer, written_to};
ghost use Rattle.listing.specs.Entries.{entry_line, call_entry, call_entries};
ghost use Rattle.listing.specs.Pieces.{call_steps, pack, piece_to};
ghost use Rattle.pieces.specs.code.TableIndex.{rows_in};
ghost use Rattle.pieces.specs.code.Filling.{filled_as};

use crate::call::call_indexed;
use crate::opened::Sources;
use common::refusal::Refusal;
use consequence::{Call, by_number};
use lines::write_called;
use listing::{Cursor, Piece};

// The line of a call for one of the transcripts.
fn write_entry(
    sources: Sources,
    call: Call,
    number: u64,
    entry: usize,
    out: &mut [u8],
) -> Result<usize, Refusal>
    requires { entry < sources.deck.index.now.count }
    ensures { let w = window_of sources.entry.window.now in
        let l = entry_line (call_entry w number call (transcript_in sources.entry.deck.table.now (rows_in sources.entry.deck.index.now entry))) in
        (result ≡ write_answer out.old l) × (out.new ≡ written_to out.old l) }
{
    let deck = sources.deck;
    let indexed = deck.index.entries[entry];
    let called = call_indexed(sources, call, indexed);
    let id = deck.table.ids[usize::from(indexed.row)];
    write_called(out, number, id, by_number(called))
}

// The lines of a call for the transcripts from the cursor on.
pub(crate) fn fill_called(
    sources: Sources,
    call: Call,
    number: u64,
    cursor: Cursor,
    out: &mut [u8],
) -> Piece
    ensures { let ts = table_transcripts sources.entry.deck.table.now in
        let w = window_of sources.entry.window.now in
        let es = drop cursor.entry (call_entries ts w number (Some call)) in
        let p = pack (length out.old) (call_steps cursor.at cursor.entry es) in
        (result ≡ filled_as p) × (out.new ≡ piece_to out.old p) }
{
    let at = cursor.at;
    let mut filled = 0;
    for entry in cursor.entry..sources.deck.index.count {
        let written = write_entry(sources, call, number, entry, &mut out[filled..]);
        let Ok(length) = written else {
            return Piece {
                length: filled,
                next: Some(Cursor { at, entry }),
            };
        };
        filled += length;
    }
    Piece {
        length: filled,
        next: None,
    }
}
