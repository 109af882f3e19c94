// The listing of a deck, a window file and calls, piece by piece.
ghost use Rattle.interface.specs.List.{moved, Listed};

use words::VareffectOutcome;

// The next lines of the listing, as many as fit into `out`, and their length. The cursor begins as zeros and is moved on; its third
// word is 1 once all is listed. 28 where not even one line fits.
#[unsafe(no_mangle)]
pub extern "C" fn vareffect_list(
    deck: &[u8],
    window: &[u8],
    calls: &[u8],
    cursor: &mut [usize; 3],
    out: &mut [u8],
) -> VareffectOutcome
    ensures { Listed
        deck.now window.now calls.now
        cursor.old out.old cursor.new out.new result }
{
    interface::vareffect_list(deck, window, calls, cursor, out)
}
