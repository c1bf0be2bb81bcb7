// The marks of drawings: the rectangles that they mark, owed as they are or by the edge flag.
ghost use Rattle.std.specs.Prelude.{◌≡◌, ◌-◌, ◌*◌, ◌≤◌, ◌<◌, min};
ghost use Rattle.model.specs.Rects.{none, lowered};
ghost use Rattle.model.specs.Lines.{span_rect, owed_by};
ghost use Rattle.laws.specs.Points.{both, marks_by};

use crate::rect;
use model::{Canvas, Edge, Marks, Rect};

// The pixels from (left, top) to (right, bottom).
fn span(left: u8, top: u8, right: u8, bottom: u8) -> Rect
    ensures { result ≡ span_rect left top right bottom }
{
    Rect {
        left: left as u16,
        top: top as u16,
        right: (right as u16) + 1,
        bottom: (bottom as u16) + 1,
    }
}

// The last of `size` places where z lies beyond it.
pub fn clamp(z: usize, size: usize) -> usize
    requires { 0 < size }
    ensures { result ≡ min z (size - 1) }
{
    z.min(size - 1)
}

fn clamp_mark(z: u16, size: usize) -> u16
    requires { (0 < size) × (size ≤ 256) }
    ensures { result ≡ min z (size - 1) }
{
    clamp(z as usize, size) as u16
}

#[tactic(auto, unfolding(model::specs::Rects::lowered))]
fn lower(canvas: Canvas, q: Rect) -> Rect
    ensures { result ≡ lowered (8 * canvas.stride) canvas.height q }
{
    Rect {
        left: clamp_mark(q.left, 8 * canvas.stride),
        top: clamp_mark(q.top, canvas.height),
        right: q.right,
        bottom: q.bottom,
    }
}

// A mark owed as it is.
pub fn owed_as_is(q: Rect) -> Marks
    ensures { result ≡ both q }
{
    Marks { dirty: q, owed: q }
}

// Of horizontals that are clamped a mark is owed lowered, of those that stop as it is.
#[tactic(auto, unfolding(model::specs::Lines::owed_by))]
fn owed_by(canvas: Canvas, edge: Edge, q: Rect) -> Rect
    ensures { result ≡ owed_by canvas.stride canvas.height edge q }
{
    match edge {
        Edge::Clamp => lower(canvas, q),
        Edge::Stop => q,
    }
}

// A mark owed by the edge flag.
pub fn owed_by_edge(canvas: Canvas, edge: Edge, q: Rect) -> Marks
    ensures { result ≡ marks_by canvas.stride canvas.height edge q }
{
    Marks {
        dirty: q,
        owed: owed_by(canvas, edge, q),
    }
}

pub fn span_marks(left: u8, top: u8, right: u8, bottom: u8) -> Marks
    ensures { result ≡ both (span_rect left top right bottom) }
{
    owed_as_is(span(left, top, right, bottom))
}

pub fn edge_marks(canvas: Canvas, edge: Edge, left: u8, top: u8, right: u8, bottom: u8) -> Marks
    ensures { result ≡ marks_by canvas.stride canvas.height edge (span_rect left top right bottom) }
{
    owed_by_edge(canvas, edge, span(left, top, right, bottom))
}

pub fn no_marks() -> Marks
    ensures { result ≡ both none }
{
    owed_as_is(rect::empty())
}
