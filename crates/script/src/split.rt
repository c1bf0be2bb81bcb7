// The lines of a script.
ghost use Rattle.std.specs.Prelude.{◌≡◌, ◌+◌, ◌≤◌, length, take, drop, IfSome};
ghost use Rattle.script.specs.Lines.{line_length, line_of, lines_from};

// How long the first line is, its newline not counted: to its newline, or to the end of the script.
fn line_length(s: &[u8]) -> usize
    ensures is_length { result ≡ line_length s.now }
    ensures within { result ≤ length s.now }
{
    s.iter().position(|b| *b == b'\n').unwrap_or(s.len())
}

// The line that stands at a place, without its newline. The lines after it begin behind the newline.
pub fn line_at(s: &[u8], at: usize) -> Option<&[u8]>
    ensures line_here { line_of result ≡ take 1 (lines_from at s.now) }
    ensures lines_behind { IfSome result (λ l. (at + length l.now ≤ length s.now) × (lines_from (at + length l.now + 1) s.now ≡ drop 1 (lines_from at s.now))) }
{
    if at >= s.len() {
        return None;
    }
    let rest = &s[at..];
    Some(&rest[..line_length(rest)])
}
