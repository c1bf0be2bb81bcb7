// The corners of a box.
ghost use Rattle.std.specs.Prelude.{◌≡◌, ◌≤◌, min, max};

// In order: all of the box lies from the left to the right and from the top to the bottom.
#[derive(Clone, Copy)]
pub struct Corners {
    pub left: u8,
    pub top: u8,
    pub right: u8,
    pub bottom: u8,
    pub ghost across: { left ≤ right },
    pub ghost down: { top ≤ bottom },
}

impl Corners {
    // Of two corners that lie opposite each other.
    pub fn between(x1: u8, y1: u8, x2: u8, y2: u8) -> Corners
        ensures columns { (result.left ≡ min x1 x2) × (result.right ≡ max x1 x2) }
        ensures lines { (result.top ≡ min y1 y2) × (result.bottom ≡ max y1 y2) }
    {
        Corners {
            left: x1.min(x2),
            top: y1.min(y2),
            right: x1.max(x2),
            bottom: y1.max(y2),
        }
    }
}
