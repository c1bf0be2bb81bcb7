// What a send does to one panel's part of the lent record.
ghost use Rattle.std.specs.Prelude.{◌≡◌, ◌+◌, ◌*◌, ◌<◌, ◌≤◌, min, length};
ghost use Rattle.model.specs.Glass.{geometry};
ghost use Rattle.model.specs.Record.{at, panel};
ghost use Rattle.model.specs.Sends.{next_line};
ghost use Rattle.laws.specs.Record.{Passing};
ghost use Rattle.laws.specs.Sending.{InHand, SentOn};

use marks::rect;
use model::Rect;
use model::glass::Glass;
use owed::{bands, rects};
use record::panels;

// With nothing in hand, the first band that owes anything moves into hand. The panel's part begins at byte `at`.
fn take_hand(rec: &mut [u8], glass: Glass, at: usize) -> Rect
    requires { at + 8 * glass.bands + 12 ≤ length rec.old }
    ensures { InHand (geometry glass) at rec.old result rec.new }
{
    let bands = glass.bands;
    let hand = rects::load_rect(rec, at + 8 * bands);
    if rect::is_empty(hand) {
        return bands::take_owed(rec, at, bands);
    }
    hand
}

// The top raised; empty after the last line.
#[tactic(auto, using(crate::proofs::Hand::goes_on, crate::proofs::Hand::ends))]
fn next_line(q: Rect) -> Rect
    requires { q.top < 65535 }
    ensures { result ≡ next_line q }
{
    let top = q.top + 1;
    if top < q.bottom {
        return Rect { top, ..q };
    }
    rect::empty()
}

// One line more; the count stays at the largest number.
fn count_line(sent: u32) -> u32
    ensures { result ≡ min (sent + 1) 4294967295 }
{
    sent.saturating_add(1)
}

// One line of panel k, whose part begins at byte `start`, counts as sent: the rectangle whose top line it is, empty where there is none.
pub fn send_panel(rec: &mut [u8], glass: Glass, k: usize, start: usize) -> Rect
    requires passing { Passing (geometry glass) rec.old × (k < glass.panels) }
    requires start_value { start ≡ at (geometry glass) (panel k) }
    ensures { SentOn glass k rec.old result rec.new }
{
    let in_hand = start + 8 * glass.bands;
    let counted = panels::sent_at(glass.bands, start);
    let sent = slices::load_four(rec, counted);
    let hand = take_hand(rec, glass, start);
    if rect::is_empty(hand) {
        return hand;
    }
    rects::store_rect(rec, in_hand, next_line(hand));
    slices::store_four(rec, counted, count_line(sent));
    hand
}
