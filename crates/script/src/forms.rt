// Lines held against patterns, and the form that fits.
ghost use Rattle.std.specs.Prelude.{◌≡◌};
ghost use Rattle.model.specs.Script.Read.{is_field, matched, no_fields, read_line};
ghost use Rattle.script.specs.Meaning.{match_of, meaning};

use crate::{Form, words};

fn is_field(p: u8) -> bool
    ensures { result ≡ is_field p }
{
    matches!(p, b'#' | b'@' | b'*')
}

// The line s is spelled as the pattern says, to its end: the last six numbers that it gave, the latest first.
pub fn matched_line(pattern: &[u8], s: &[u8]) -> Option<[u16; 6]>
    ensures { match_of result ≡ matched pattern.now s.now no_fields }
{
    let mut fields: [u16; 6] = [0; 6];
    let mut rest = s;
    for p in pattern {
        let (v, after) = words::take_piece(*p, rest)?;
        rest = after;
        if is_field(*p) {
            let [a, b, c, d, e, _] = fields;
            fields = [v, a, b, c, d, e];
        }
    }
    rest.is_empty().then_some(fields)
}

// The form of a line.
pub fn read_line(s: &[u8]) -> Form
    ensures { meaning result ≡ read_line s.now }
{
    if let Some(f) = matched_line(b"(point (# #) *)", s) {
        return Form::Point(f[2] as u8, f[1] as u8, f[0] as u8);
    }
    if let Some(f) = matched_line(b"(line (# #) (# #) *)", s) {
        return Form::Line(f[4] as u8, f[3] as u8, f[2] as u8, f[1] as u8, f[0] as u8);
    }
    if let Some(f) = matched_line(b"(poke @ #)", s) {
        return Form::Poke(f[1], f[0] as u8);
    }
    match matched_line(b"(send)", s) {
        Some(_) => Form::Send,
        None => Form::Bad,
    }
}
