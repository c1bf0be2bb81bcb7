// Numbers, words and modes at the front of a line: each function gives the number that stands there and what is left of the line.
ghost use Rattle.std.specs.Prelude.{◌≡◌, ◌<◌, ◌≤◌, IsTrue};
ghost use Rattle.model.specs.Script.Read.{goes_on, take_digits, take_number, take_word, take_mode, take_piece};
ghost use Rattle.script.specs.Meaning.{number_of, taken_of};

// The digit d goes on with the number v, which has fewer than five digits.
fn goes_on(v: u32, d: u8) -> bool
    ensures value { result ≡ goes_on v d }
    ensures digit { IsTrue result → (48 ≤ d) × (d < 58) × (v < 10000) }
{
    d.is_ascii_digit() && v < 10000
}

// The digits that follow those of `first`.
fn take_digits(s: &[u8], first: u32) -> (u32, &[u8])
    requires { first < 10 }
    ensures { number_of result ≡ take_digits first s.now }
{
    let mut v = first;
    for (i, d) in s.iter().enumerate() {
        if !goes_on(v, *d) {
            return (v, &s[i..]);
        }
        v = 10 * v + u32::from(*d - b'0');
    }
    (v, &[])
}

pub fn take_number(s: &[u8], limit: u16) -> Option<(u16, &[u8])>
    ensures { taken_of result ≡ take_number limit s.now }
{
    let (d, rest) = s.split_first()?;
    if !d.is_ascii_digit() {
        return None;
    }
    if *d == b'0' {
        return Some((0, rest));
    }
    let (v, rest) = take_digits(rest, u32::from(*d - b'0'));
    if v > u32::from(limit) {
        return None;
    }
    Some((v as u16, rest))
}

// The word w, which stands for v.
pub fn take_word<'a>(s: &'a [u8], w: &[u8], v: u16) -> Option<(u16, &'a [u8])>
    ensures { taken_of result ≡ take_word v w.now s.now }
{
    let rest = s.strip_prefix(w)?;
    Some((v, rest))
}

pub fn take_mode(s: &[u8]) -> Option<(u16, &[u8])>
    ensures { taken_of result ≡ take_mode s.now }
{
    take_word(s, b"clear", 0)
        .or_else(|| take_word(s, b"or", 1))
        .or_else(|| take_word(s, b"xor", 2))
        .or_else(|| take_word(s, b"unknown", 3))
}

// What the byte p of a pattern takes. A byte that is no field stands for itself.
pub fn take_piece(p: u8, s: &[u8]) -> Option<(u16, &[u8])>
    ensures { taken_of result ≡ take_piece p s.now }
{
    match p {
        b'#' => take_number(s, 255),
        b'@' => take_number(s, 65535),
        b'*' => take_mode(s),
        _ => take_word(s, &[p], 0),
    }
}
