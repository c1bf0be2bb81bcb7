// A line of the screen copied to the panel by bytes: whole bytes, with a mask at each edge.
ghost use Rattle.std.specs.Prelude.{◌≡◌, ◌<◌, length, get_or, set};
ghost use Rattle.laws.specs.Bytes.{mixed};
ghost use Rattle.model.specs.Sends.{copy_line};
ghost use Rattle.send.specs.Line.{LineOn};

use model::{Canvas, Rect};
use pixels::run::{end_mask, start_mask};

// Copies the masked bits of byte `at`; its other bits stay.
fn copy_masked(screen: &[u8], panel: &mut [u8], at: usize, mask: u8)
    requires { (at < length screen.now) × (at < length panel.old) }
    ensures { panel.new ≡ set panel.old at (mixed mask (get_or screen.now at 0) (get_or panel.old at 0)) }
{
    panel[at] = (screen[at] & mask) | (panel[at] & !mask);
}

// Copies the pixels of the rectangle's top line, from its left to its right; all other bits of the panel stay.
#[tactic(auto, using(crate::proofs::Copy::row_in))]
pub fn copy_line(canvas: Canvas, screen: &[u8], panel: &mut [u8], r: Rect)
    requires { LineOn canvas.stride canvas.height screen.now panel.old r }
    ensures { panel.new ≡ copy_line canvas.stride r screen.now panel.old }
{
    let stride = canvas.stride;
    let left = r.left as usize;
    let last = r.right as usize - 1;
    let row = stride * (r.top as usize);
    let first = row + left / 8;
    let end = row + last / 8;
    if first == end {
        copy_masked(screen, panel, first, start_mask(left) & end_mask(last));
        return;
    }
    copy_masked(screen, panel, first, start_mask(left));
    let from = first + 1;
    slices::copy_bytes(&screen[from..end], &mut panel[from..end]);
    copy_masked(screen, panel, end, end_mask(last));
}
