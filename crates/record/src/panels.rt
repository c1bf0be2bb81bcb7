// Where the panels' parts stand in the lent record.
ghost use Rattle.std.specs.Prelude.{◌≡◌, ◌+◌, ◌*◌, ◌≤◌, ◌<◌};
ghost use Rattle.model.specs.Glass.{geometry};
ghost use Rattle.model.specs.Record.{at, panel};

use model::glass::{Glass, HEAD_BYTES};

// Where panel k's part begins.
pub fn panel_at(glass: Glass, k: usize) -> usize
    requires { k < glass.panels }
    ensures { result ≡ at (geometry glass) (panel k) }
{
    if k == 0 {
        return HEAD_BYTES;
    }
    glass.others + (k - 1) * glass.pending
}

// Where the count of lines sent stands in the part that begins at byte `at`: behind the bands and the rectangle in hand.
pub fn sent_at(bands: usize, at: usize) -> usize
    requires { at + 8 * bands + 12 ≤ 65535 }
    ensures { result ≡ at + 8 * bands + 8 }
{
    at + 8 * bands + 8
}
