// Numbers at their limits, run on the core. Document 01's last known picture: graphics base 63,935 and radius 127 are accepted, 63,936 and 128 refused; and the panels:
// 3 is accepted, 4 and 255 refused. And the leads around GB's empty rows, with no GB font lent: 169 and 176 need it and are refused, 170 and 175 are accepted.
// A line of output is a call, then its answer, 1 if it left all bytes as they were, else 0, and four bytes of memory. The file stdout beside src/ was written by hand, from
// document 01 and the steps of the source.
#![tactic(auto)]

use caption::{answer, ellipses, flushes, open, points, poke, sends};
use model::glass::{MEMORY_BYTES, RECORD_BYTES, SCREEN_BYTES};
use model::refusal::Refusal;
use standard_output::StandardOutput;
use std::fmt;
use std::fmt::Write;

// Open's graphics base; a circle's radius or an ellipse's two, then the fill flag; a send's panel; the pair that a flush shows, then the entries of its extra list.
#[derive(Clone, Copy)]
enum Call {
    Open(u16),
    Circle(u8, u8),
    Ellipse(u8, u8, u8),
    Send(u8),
    Flush(u8, u8, u8),
}

impl fmt::Display for Call {
    fn fmt<W: fmt::Write>(&self, f: &mut fmt::Formatter<W>) -> fmt::Result {
        match *self {
            Call::Open(graphics) => write!(f, "open {graphics}"),
            Call::Circle(r, fill) => write!(f, "circle {r} {fill}"),
            Call::Ellipse(rx, ry, fill) => write!(f, "ellipse {rx} {ry} {fill}"),
            Call::Send(number) => write!(f, "send {number}"),
            Call::Flush(lead, trail, entries) => write!(f, "flush {lead} {trail} {entries}"),
        }
    }
}

// V2, no keys, the text from byte 0 on; then a point at the last pixel, in the screen's last byte. The highest screen ends one byte before memory does.
fn open_at(rec: &mut [u8], memory: &mut [u8], graphics: u16) -> Result<(), Refusal> {
    open::caption_open(rec, memory, graphics, 0, 1, 0, 0, 0, 0, 0, 0, 0, 0, 0)?;
    points::caption_draw_point(rec, memory, 159, 79, 1)
}

// A pair stands at row 2, column 0: line 40 begins with the lower digit of its lead, or with line 8 of its glyph.
fn prepare(rec: &mut [u8], memory: &mut [u8], call: Call) -> Result<(), Refusal> {
    open_at(rec, memory, 4096)?;
    if let Call::Flush(lead, trail, _) = call {
        poke::caption_write_byte(rec, memory, 40, lead)?;
        poke::caption_write_byte(rec, memory, 41, trail)?;
    }
    Ok(())
}

// Digits of 85s; the one entry is for 0xAFFE, with a glyph of 15s. The other fonts are empty.
fn flush(rec: &mut [u8], memory: &mut [u8], entries: u8) -> Result<(), Refusal> {
    let ascii8 = [85u8; 568];
    let extra = [15u8; 32];
    if entries == 0 {
        return flushes::caption_flush(rec, memory, &ascii8, b"", b"", b"", b"", &extra);
    }
    flushes::caption_flush(
        rec,
        memory,
        &ascii8,
        b"",
        b"",
        b"",
        &[254, 175, 0, 0, 0, 0],
        &extra,
    )
}

// Shapes have their centre at (127, 40).
fn make_call(
    rec: &mut [u8],
    memory: &mut [u8],
    panel: &mut [u8],
    call: Call,
) -> Result<(), Refusal> {
    match call {
        Call::Open(graphics) => open_at(rec, memory, graphics),
        Call::Circle(r, fill) => ellipses::caption_draw_circle(rec, memory, 127, 40, r, fill, 1),
        Call::Ellipse(rx, ry, fill) => {
            ellipses::caption_draw_ellipse(rec, memory, 127, 40, rx, ry, fill, 1)
        }
        Call::Send(number) => sends::caption_send(rec, memory, panel, number).map(|_| ()),
        Call::Flush(_, _, entries) => flush(rec, memory, entries),
    }
}

// Each call is made on a screen at 4,096 that has the last pixel set alone. The bytes are pixels 0-7 and 120-127 of line 40 of that screen, and the last two of memory.
fn run(call: Call) {
    let mut rec = [0u8; RECORD_BYTES];
    let mut memory = [0u8; MEMORY_BYTES];
    let mut panel = [255u8; SCREEN_BYTES];
    let _ = prepare(&mut rec, &mut memory, call);
    let kept_rec = rec;
    let kept_memory = memory;
    let kept_panel = panel;
    let code = answer::code(make_call(&mut rec, &mut memory, &mut panel, call));
    let stays = u8::from(rec == kept_rec && memory == kept_memory && panel == kept_panel);
    let [a, b, c, d] = [memory[4896], memory[4911], memory[65534], memory[65535]];
    let _ = writeln!(StandardOutput, "{call}: {code} {stays} {a} {b} {c} {d}");
}

fn run_all(calls: &[Call]) {
    for call in calls {
        run(*call);
    }
}

fn run_radii(fill: u8) {
    run_all(&[
        Call::Circle(127, fill),
        Call::Circle(128, fill),
        Call::Ellipse(127, 3, fill),
        Call::Ellipse(128, 3, fill),
        Call::Ellipse(3, 127, fill),
        Call::Ellipse(3, 128, fill),
    ]);
}

fn run_leads() {
    run_all(&[
        Call::Flush(169, 254, 0),
        Call::Flush(170, 161, 0),
        Call::Flush(175, 254, 0),
        Call::Flush(176, 161, 0),
        Call::Flush(170, 161, 1),
        Call::Flush(175, 254, 1),
    ]);
}

fn main() {
    run_all(&[Call::Open(63935), Call::Open(63936)]);
    run_radii(0);
    run_radii(1);
    run_all(&[Call::Send(3), Call::Send(4), Call::Send(255)]);
    run_leads();
}
