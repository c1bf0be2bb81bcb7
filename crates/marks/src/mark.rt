// Marks, on the structs by value.
ghost use Rattle.std.specs.Prelude.{◌≡◌};
ghost use Rattle.model.specs.Rects.{none};
ghost use Rattle.model.specs.Marks.{whole};
ghost use Rattle.model.specs.Print.{scroll_mark};

use crate::rect;
use crate::span::{no_marks, owed_as_is};
use model::{Canvas, Marks, Rect};

pub fn whole_screen(canvas: Canvas) -> Rect
    ensures { result ≡ whole canvas.stride canvas.height }
{
    Rect {
        left: 0,
        top: 0,
        right: (8 * canvas.stride) as u16,
        bottom: canvas.height as u16,
    }
}

pub fn whole_marks(canvas: Canvas) -> Marks
    ensures { (result.dirty ≡ whole canvas.stride canvas.height) × (result.owed ≡ whole canvas.stride canvas.height) }
{
    owed_as_is(whole_screen(canvas))
}

// What is owed, with nothing dirty.
pub fn owed_marks(owed: Rect) -> Marks
    ensures { (result.dirty ≡ none) × (result.owed ≡ owed) }
{
    Marks {
        dirty: rect::empty(),
        owed,
    }
}

// After n scrolls in Graph: they owe the whole screen, and mark nothing.
#[tactic(auto, unfolding(model::specs::Print::scroll_mark))]
pub fn scroll_marks(canvas: Canvas, n: usize) -> Marks
    ensures { (result.dirty ≡ none) × (result.owed ≡ scroll_mark canvas.stride canvas.height n) }
{
    if n == 0 {
        return no_marks();
    }
    owed_marks(whole_screen(canvas))
}
