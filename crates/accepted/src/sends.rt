// Sends: what the record gives, then the copy of that line.
ghost use Rattle.std.specs.Prelude.{◌≡◌, ◌<◌, length};
ghost use Rattle.model.specs.Geometry.{screen_bytes};
ghost use Rattle.model.specs.Glass.{glass_of};
ghost use Rattle.model.specs.Calls.{line_sent_numbers};
ghost use Rattle.record.specs.Given.{Given};
ghost use Rattle.accepted.specs.LineSent.{LineSent, numbers_of};

use marks::rect;
use model::{Rect, SentLine};
use record::glass::{canvas_of, glass_of};
use record::head::load_head;
use record::panels::panel_at;
use send::{line, pending};

// The top line of q, as a line that was sent; none where q is empty.
pub fn line_sent(q: Rect) -> Option<SentLine>
    ensures { line_sent_numbers result ≡ numbers_of q }
{
    if rect::is_empty(q) {
        return None;
    }
    Some(SentLine {
        line: q.top,
        left: q.left,
        right: q.right,
    })
}

// A line of panel k counts as sent and is copied to the panel: the rectangle whose top line it is, empty where there is none. It asks for the glass itself, whose
// numbers are constants here.
pub fn send_line(rec: &mut [u8], memory: &[u8], panel: &mut [u8], k: usize) -> Rect
    requires given { Given rec.old memory.now }
    requires panel_len { (length panel.old ≡ screen_bytes (glass_of (length rec.old))) × (k < (glass_of (length rec.old)).panels) }
    ensures { LineSent (glass_of (length rec.old)) k rec.old memory.now panel.old result rec.new panel.new }
{
    let glass = glass_of(rec.len());
    let from = load_head(rec).graphics as usize;
    let q = pending::send_panel(rec, glass, k, panel_at(glass, k));
    if rect::is_empty(q) {
        return q;
    }
    let to = from + glass.screen;
    line::copy_line(canvas_of(glass), &memory[from..to], panel, q);
    q
}
