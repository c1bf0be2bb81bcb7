// One stored call on the core.
use crate::answer::Answer;
use crate::call::Kind;
use crate::{call, fonts};
use caption::{
    bitmaps, clear, cursor, dirty, ellipses, flushes, lines, open, place, points, poke, print,
};
use model::refusal::Refusal;

// No refusal has this number: the list holds a call that is not replayed here.
const UNKNOWN: u32 = 99;

// Of the key words the first and the last are stored; the others are 0.
fn run_open(rec: &mut [u8], memory: &mut [u8], stored: &[u8; 16]) -> Result<(), Refusal> {
    let graphics = call::two(stored, 1);
    let text = call::two(stored, 3);
    let version = stored[5];
    let first = call::four(stored, 6);
    let last = call::four(stored, 10);
    let edge = stored[14];
    open::caption_open(
        rec, memory, graphics, text, version, first, 0, 0, 0, 0, 0, 0, last, edge,
    )
}

fn run_check_point(rec: &[u8], memory: &[u8], stored: &[u8; 16]) -> Result<bool, Refusal> {
    points::caption_check_point(
        rec,
        memory,
        call::signed(stored, 1),
        call::signed(stored, 5),
    )
}

fn run_bitmap(
    rec: &mut [u8],
    memory: &mut [u8],
    stored: &[u8; 16],
    by_bytes: bool,
) -> Result<(), Refusal> {
    let address = call::two(stored, 1);
    let x = call::signed(stored, 3);
    let y = call::signed(stored, 7);
    let width = stored[11];
    let height = stored[12];
    let mode = stored[13];
    if by_bytes {
        bitmaps::caption_paint_bitmap_by_bytes(rec, memory, address, x, y, width, height, mode)
    } else {
        bitmaps::caption_paint_bitmap(rec, memory, address, x, y, width, height, mode)
    }
}

// Lent the whole stand-in fonts and no extra list.
fn run_flush(rec: &mut [u8], memory: &mut [u8]) -> Result<(), Refusal> {
    let mut ascii8 = [0u8; 1024];
    let mut ascii16 = [0u8; 2048];
    let mut gb = [0u8; 243648];
    let mut emoji = [0u8; 16864];
    let mut extra = [0u8; 1024];
    fonts::make(&mut ascii8, 1);
    fonts::make(&mut ascii16, 2);
    fonts::make(&mut gb, 3);
    fonts::make(&mut emoji, 4);
    fonts::make(&mut extra, 5);
    flushes::caption_flush(rec, memory, &ascii8, &ascii16, &gb, &emoji, b"", &extra)
}

// The text's length, then its bytes.
fn run_print(rec: &mut [u8], memory: &mut [u8], stored: &[u8; 16]) -> Answer {
    match stored[2..].get(..usize::from(stored[1])) {
        Some(text) => print::caption_print(rec, memory, text).into(),
        None => UNKNOWN.into(),
    }
}

fn run_write_byte(rec: &mut [u8], memory: &mut [u8], stored: &[u8; 16]) -> Result<(), Refusal> {
    poke::caption_write_byte(rec, memory, call::two(stored, 1), stored[3])
}

pub fn run(rec: &mut [u8], memory: &mut [u8], stored: &[u8; 16]) -> Answer {
    let Ok(kind) = Kind::try_from(stored[0]) else {
        return UNKNOWN.into();
    };
    let [_, a, b, c, d, e, f, ..] = *stored;
    match kind {
        Kind::Open => run_open(rec, memory, stored).into(),
        Kind::Reset => open::caption_reset(rec, memory).into(),
        Kind::DrawPoint => points::caption_draw_point(rec, memory, a, b, c).into(),
        Kind::DrawLine => lines::caption_draw_line(rec, memory, a, b, c, d, e).into(),
        Kind::DrawBox => lines::caption_draw_box(rec, memory, a, b, c, d, e, f).into(),
        Kind::DrawCircle => ellipses::caption_draw_circle(rec, memory, a, b, c, d, e).into(),
        Kind::DrawEllipse => ellipses::caption_draw_ellipse(rec, memory, a, b, c, d, e, f).into(),
        Kind::CheckPoint => run_check_point(rec, memory, stored).map(u8::from).into(),
        Kind::PaintBitmap => run_bitmap(rec, memory, stored, false).into(),
        Kind::PaintBitmapByBytes => run_bitmap(rec, memory, stored, true).into(),
        Kind::Print => run_print(rec, memory, stored),
        Kind::Newline => print::caption_newline(rec, memory).into(),
        Kind::Cls => clear::caption_cls(rec, memory).into(),
        Kind::Flush => run_flush(rec, memory).into(),
        Kind::GetRow => place::caption_get_row(rec).into(),
        Kind::GetColumn => place::caption_get_column(rec).into(),
        Kind::SetRow => place::caption_set_row(rec, a).into(),
        Kind::SetColumn => place::caption_set_column(rec, a).into(),
        Kind::SetScreenMode => clear::caption_set_screen_mode(rec, memory, a).into(),
        Kind::SetPrintMode => place::caption_set_print_mode(rec, a).into(),
        Kind::BlinkCursor => cursor::caption_blink_cursor(rec, memory).into(),
        Kind::ClearCursor => cursor::caption_clear_cursor(rec, memory).into(),
        Kind::WriteByte => run_write_byte(rec, memory, stored).into(),
        Kind::TakeDirtyArea => dirty::caption_take_dirty_area(rec).into(),
    }
}
