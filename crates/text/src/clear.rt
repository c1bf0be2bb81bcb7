// The clearing after a text.
ghost use Rattle.std.specs.Prelude.{◌≡◌, ◌<◌, length};
ghost use Rattle.model.specs.Print.{clear_from};

// The cell becomes 0, and those after it until the next is 0 already or the last is done.
pub fn clear_from(text: &mut [u8], at: usize)
    requires { at < length text.old }
    ensures { text.new ≡ clear_from at text.old }
{
    text[at] = 0;
    for i in at + 1..text.len() {
        if text[i] == 0 {
            return;
        }
        text[i] = 0;
    }
}
