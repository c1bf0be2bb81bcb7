// A rectangle in lent bytes: left, top, right, bottom, two bytes each, least byte first.
ghost use Rattle.std.specs.Prelude.{◌≡◌, false, ◌+◌, ◌*◌, ◌^◌, ◌≤◌, ◌<◌, length};
ghost use Rattle.model.specs.Memory.{with_window};
ghost use Rattle.model.specs.Rects.{is_empty, fits};
ghost use Rattle.model.specs.Bytes.{rect_at, rect_bytes};
ghost use Rattle.laws.specs.Owed.{joined_at, owed_at};

use marks::rect;
use model::Rect;

// Where the rectangle of band i stands: that of the first begins at byte `at`.
pub fn band_at(at: usize, i: usize) -> usize
    requires { at + 8 * i < 2 ^ 63 }
    ensures { result ≡ at + 8 * i }
{
    at + 8 * i
}

pub fn load_rect(bytes: &[u8], at: usize) -> Rect
    requires { at + 8 ≤ length bytes.now }
    ensures { result ≡ rect_at bytes.now at }
{
    Rect {
        left: slices::load_two(bytes, at),
        top: slices::load_two(bytes, at + 2),
        right: slices::load_two(bytes, at + 4),
        bottom: slices::load_two(bytes, at + 6),
    }
}

// Four zeros stand there. Tested by bytes: the compiler makes one comparison of eight, and of two slices that are compared a call with branches.
pub fn is_clear(bytes: &[u8], at: usize) -> bool
    requires { at + 8 ≤ length bytes.now }
    ensures { result ≡ is_empty (rect_at bytes.now at) }
{
    (bytes[at] == 0)
        & (bytes[at + 1] == 0)
        & (bytes[at + 2] == 0)
        & (bytes[at + 3] == 0)
        & (bytes[at + 4] == 0)
        & (bytes[at + 5] == 0)
        & (bytes[at + 6] == 0)
        & (bytes[at + 7] == 0)
}

// STATE: an empty rectangle, or a proper one within its limits.
#[tactic(auto, using(laws::specs::Rects::fits_empty, laws::specs::Rects::fits_proper))]
pub fn rect_fits(bytes: &[u8], at: usize, w: u16, lo: u16, hi: u16) -> bool
    requires { at + 8 ≤ length bytes.now }
    ensures { result ≡ fits w lo hi (rect_at bytes.now at) }
{
    is_clear(bytes, at) || rect::is_proper(w, lo, hi, load_rect(bytes, at))
}

pub fn store_rect(bytes: &mut [u8], at: usize, q: Rect)
    requires { at + 8 ≤ length bytes.old }
    ensures { bytes.new ≡ with_window at (rect_bytes q) bytes.old }
{
    let sides = [
        q.left.to_le_bytes(),
        q.top.to_le_bytes(),
        q.right.to_le_bytes(),
        q.bottom.to_le_bytes(),
    ];
    slices::put_bytes(bytes, at, sides.as_flattened());
}

// The rectangle that begins at byte `at`, joined with q, which is not empty. Each side is stored by itself: eight bytes put together of them cost more.
pub fn join_rect(bytes: &mut [u8], at: usize, q: Rect)
    requires at_in_bounds { at + 8 ≤ length bytes.old }
    requires q_value { is_empty q ≡ false }
    ensures { bytes.new ≡ joined_at at q bytes.old }
{
    let left = q.left;
    let top = q.top;
    let right = q.right;
    let bottom = q.bottom;
    if is_clear(bytes, at) {
        store_rect(bytes, at, q);
        return;
    }
    let stands = load_rect(bytes, at);
    slices::store_two(bytes, at, stands.left.min(left));
    slices::store_two(bytes, at + 2, stands.top.min(top));
    slices::store_two(bytes, at + 4, stands.right.max(right));
    slices::store_two(bytes, at + 6, stands.bottom.max(bottom));
}

// q, which is not empty, owed where a rectangle begins at byte `at`: a whole band is stored, as it holds what is owed there; any other is joined to it.
#[tactic(auto, unfolding(laws::specs::Owed::owed_at))]
pub fn owe_rect(bytes: &mut [u8], at: usize, q: Rect, whole: bool)
    requires at_in_bounds { at + 8 ≤ length bytes.old }
    requires q_value { is_empty q ≡ false }
    ensures { bytes.new ≡ owed_at whole at q bytes.old }
{
    if whole {
        store_rect(bytes, at, q);
        return;
    }
    join_rect(bytes, at, q);
}
