// The screen, which scrolls with the text in Graph.
ghost use Rattle.std.specs.Prelude.{◌≡◌, ◌*◌, ◌<◌, length};
ghost use Rattle.model.specs.Print.{scrolled_times, screen_scrolls};

// n times by a text row, of `size` bytes. Once all rows have gone the screen is blank, and stays so.
pub fn scroll_screen(rows: usize, size: usize, screen: &mut [u8], n: usize)
    requires { (length screen.old ≡ rows * size) × (0 < rows) }
    ensures { screen.new ≡ scrolled_times n size screen.old }
{
    slices::scroll(screen, n.min(rows) * size);
}

// In Graph the screen scrolls with the text.
#[tactic(auto, unfolding(model::specs::Print::screen_scrolls))]
pub fn screen_scrolls(mode: u8, n: usize) -> usize
    ensures { result ≡ screen_scrolls mode n }
{
    if mode == 1 { n } else { 0 }
}
