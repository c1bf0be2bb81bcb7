// `print`: byte by byte, and pair by pair.
ghost use Rattle.std.specs.Prelude.{◌≡◌, ◌+◌, ◌*◌, ◌^◌, ◌<◌, ◌≤◌, length};
ghost use Rattle.model.specs.Print.{wrap, end_row, print_byte, print_pair, print_bytes, print_on};
ghost use Rattle.text.specs.Written.{page, Ready, Written};
ghost use Rattle.text.specs.Printed.{Printed};

use crate::clear::clear_from;
use crate::page::{Place, newline, write_cell};

const SPACE: u8 = 32;

// Where the next byte of a text goes, and which it is.
#[derive(Clone, Copy)]
pub struct Turn {
    pub place: Place,
    pub at: usize,
}

// A byte >= 128 met at the last column: a space there, then newline.
fn wrap_byte(
    rows: usize,
    columns: usize,
    text: &mut [u8],
    flags: &mut [u8],
    p: Place,
    b: u8,
    inverse: bool,
) -> Place
    requires ready { Ready rows columns 1 text.old flags.old p }
    requires scrolls_fit { p.scrolls + 1 < 2 ^ 64 }
    ensures { Written (wrap rows columns inverse b (page text.old flags.old p)) (p.scrolls + 1) text.new flags.new result }
{
    if (b >= 128) & (p.column + 1 == columns) {
        let q = write_cell(columns, text, flags, p, SPACE, inverse);
        return newline(rows, columns, text, flags, q);
    }
    p
}

// After the last column: newline.
fn end_row(rows: usize, columns: usize, text: &mut [u8], flags: &mut [u8], p: Place) -> Place
    requires ready { Ready rows columns 0 text.old flags.old p }
    requires scrolls_fit { p.scrolls + 1 < 2 ^ 64 }
    ensures { Written (end_row rows columns (page text.old flags.old p)) (p.scrolls + 1) text.new flags.new result }
{
    if p.column == columns {
        return newline(rows, columns, text, flags, p);
    }
    p
}

fn print_byte(
    rows: usize,
    columns: usize,
    text: &mut [u8],
    flags: &mut [u8],
    p: Place,
    b: u8,
    inverse: bool,
) -> Place
    requires ready { Ready rows columns 1 text.old flags.old p }
    requires scrolls_fit { p.scrolls + 2 < 2 ^ 64 }
    ensures { Written (print_byte rows columns inverse b (page text.old flags.old p)) (p.scrolls + 2) text.new flags.new result }
{
    let q = wrap_byte(rows, columns, text, flags, p, b, inverse);
    let r = write_cell(columns, text, flags, q, b, inverse);
    end_row(rows, columns, text, flags, r)
}

// A byte >= 128 with the next.
fn print_pair(
    rows: usize,
    columns: usize,
    text: &mut [u8],
    flags: &mut [u8],
    p: Place,
    b: u8,
    c: u8,
    inverse: bool,
) -> Place
    requires ready { Ready rows columns 1 text.old flags.old p }
    requires scrolls_fit { p.scrolls + 2 < 2 ^ 64 }
    requires takes_next { 128 ≤ b }
    ensures { Written (print_pair rows columns inverse b c (page text.old flags.old p)) (p.scrolls + 2) text.new flags.new result }
{
    let q = wrap_byte(rows, columns, text, flags, p, b, inverse);
    let r = write_cell(columns, text, flags, q, b, inverse);
    let s = write_cell(columns, text, flags, r, c, inverse);
    end_row(rows, columns, text, flags, s)
}

// The byte of `from` at a place, with the next where it takes that with it.
fn print_at(
    rows: usize,
    columns: usize,
    text: &mut [u8],
    flags: &mut [u8],
    p: Place,
    from: &[u8],
    at: usize,
    inverse: bool,
) -> Turn
    requires ready { Ready rows columns 1 text.old flags.old p }
    requires scrolls_fit { p.scrolls + 2 < 2 ^ 64 }
    requires byte_there { at < length from.now }
    ensures { Printed rows columns inverse from.now at text.old flags.old p text.new flags.new result }
{
    let b = from[at];
    if b >= 128 && at + 1 < from.len() {
        let c = from[at + 1];
        let q = print_pair(rows, columns, text, flags, p, b, c, inverse);
        return Turn {
            place: q,
            at: at + 2,
        };
    }
    let q = print_byte(rows, columns, text, flags, p, b, inverse);
    Turn {
        place: q,
        at: at + 1,
    }
}

// All bytes of `from`.
fn print_bytes(
    rows: usize,
    columns: usize,
    text: &mut [u8],
    flags: &mut [u8],
    p: Place,
    from: &[u8],
    inverse: bool,
) -> Place
    requires ready { Ready rows columns 1 text.old flags.old p }
    requires not_scrolled { p.scrolls ≡ 0 }
    ensures { Written (print_bytes rows columns inverse from.now (page text.old flags.old p)) (2 * length from.now) text.new flags.new result }
{
    let n = from.len();
    let mut q = p;
    let mut i: usize = 0;
    while i < n {
        let s = print_at(rows, columns, text, flags, q, from, i, inverse);
        q = s.place;
        i = s.at;
    }
    q
}

pub fn print(
    rows: usize,
    columns: usize,
    text: &mut [u8],
    flags: &mut [u8],
    p: Place,
    from: &[u8],
    inverse: bool,
) -> Place
    requires ready { Ready rows columns 1 text.old flags.old p }
    requires not_scrolled { p.scrolls ≡ 0 }
    ensures { Written (print_on rows columns inverse from.now (page text.old flags.old p)) (2 * length from.now) text.new flags.new result }
{
    let q = print_bytes(rows, columns, text, flags, p, from, inverse);
    let cell = q.row * columns + q.column;
    clear_from(text, cell);
    q
}
