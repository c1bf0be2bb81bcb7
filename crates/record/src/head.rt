// The head in the lent record, loaded.
ghost use Rattle.std.specs.Prelude.{◌≡◌, ◌≤◌, length};
ghost use Rattle.model.specs.Record.{head_bytes, head_of};

use model::Head;
use owed::rects;

// Where its fields stand.
pub const GRAPHICS: usize = 0;

pub const TEXT: usize = 2;

pub const ROW: usize = 4;

pub const COLUMN: usize = 5;

pub const SCREEN_MODE: usize = 6;

pub const PRINT_MODE: usize = 7;

pub const CURSOR: usize = 8;

pub const VERSION: usize = 9;

pub const DIRTY: usize = 10;

#[tactic(auto, using(laws::specs::Record::head_equal))]
pub fn load_head(rec: &[u8]) -> Head
    requires { head_bytes ≤ length rec.now }
    ensures { result ≡ head_of rec.now }
{
    Head {
        graphics: slices::load_two(rec, GRAPHICS),
        text: slices::load_two(rec, TEXT),
        row: rec[ROW],
        column: rec[COLUMN],
        screen: rec[SCREEN_MODE],
        print: rec[PRINT_MODE],
        cursor: rec[CURSOR],
        version: rec[VERSION],
        dirty: rects::load_rect(rec, DIRTY),
    }
}
