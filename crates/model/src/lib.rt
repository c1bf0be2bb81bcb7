// The types that code and definitions share. Every definition of document 01 stands in specs/; of functions only the conversions of modes stand here.
#![tactic(auto)]

ghost use Rattle.std.specs.Prelude.{◌<◌, ◌≤◌};

pub mod glass;
mod modes;
pub mod refusal;

// left < right and top < bottom, right and bottom not included; the empty rectangle is four zeros.
#[derive(Clone, Copy, PartialEq, Eq)]
pub struct Rect {
    pub left: u16,
    pub top: u16,
    pub right: u16,
    pub bottom: u16,
}

// The first 18 bytes of the record: the bases, the text state, the modes and the dirty area.
#[derive(Clone, Copy)]
pub struct Head {
    pub graphics: u16,
    pub text: u16,
    pub row: u8,
    pub column: u8,
    pub screen: u8,
    pub print: u8,
    pub cursor: u8,
    pub version: u8,
    pub dirty: Rect,
}

// What a drawing marks: the rectangle for dirty, and the one that it owes. Empty: nothing.
#[derive(Clone, Copy)]
pub struct Marks {
    pub dirty: Rect,
    pub owed: Rect,
}

// What is drawn on: a line in bytes, and how many lines. There is a pixel, and coordinates are bytes.
#[derive(Clone, Copy)]
pub struct Canvas {
    pub stride: usize,
    pub height: usize,
    pub ghost size: { (0 < stride) × (stride ≤ 32) × (0 < height) × (height ≤ 256) },
}

// What a horizontal line does beyond the screen's last column or line: it is clamped to it, or it stops there.
#[derive(Clone, Copy)]
pub enum Edge {
    Clamp,
    Stop,
}

#[derive(Clone, Copy)]
pub enum DrawMode {
    Clear,
    Or,
    Xor,
    Unknown,
}

#[derive(Clone, Copy)]
pub enum PaintMode {
    Copy,
    Or,
    Not,
    And,
    Xor,
}

// The places of an axis that show a run of places which may start before it: from `from` up to `to`, `to` not included. `skip` of the run lie before the axis.
#[derive(Clone, Copy)]
pub struct Visible {
    pub skip: usize,
    pub from: usize,
    pub to: usize,
}

// Where a pair's glyph stands: its index in the emoji or the GB font, its offset in the extra font, or nowhere, so that it shows in hexadecimal.
#[derive(Clone, Copy)]
pub enum Glyph {
    Emoji(usize),
    Gb(usize),
    Extra(usize),
    Hexadecimal,
}

// Where a flush stands: the cell that is read, and the row and column where it is shown.
#[derive(Clone, Copy)]
pub struct Spot {
    pub cell: usize,
    pub row: usize,
    pub column: usize,
}

// What is shown of a cell: nothing, one byte, a pair with the cell after it, or one byte in hexadecimal.
#[derive(Clone, Copy)]
pub enum CellKind {
    Blank,
    Single,
    Pair,
    Code,
}

// A spot, its byte and the next one, and how they are shown.
#[derive(Clone, Copy)]
pub struct Shown {
    pub spot: Spot,
    pub lead: u8,
    pub trail: u8,
    pub kind: CellKind,
}

// The registers of the glass controller, in the order of their numbers; `byte` is register 4, the last data byte.
#[derive(Clone, Copy, Default)]
pub struct Registers {
    pub command: u8,
    pub line: u8,
    pub first: u8,
    pub count: u8,
    pub byte: u8,
    pub status: u8,
    pub enable: u8,
    pub reset: u8,
}

// A register by its number, which is 0 to 7 in this order.
#[derive(Clone, Copy)]
pub enum Register {
    Command,
    Line,
    First,
    Count,
    Data,
    Status,
    Enable,
    Reset,
}

// A line that was sent: its number, its first column, and the one after its last.
#[derive(Clone, Copy)]
pub struct SentLine {
    pub line: u16,
    pub left: u16,
    pub right: u16,
}

// What C is answered where that is more than a code. With a refusal all numbers but the code are 0.
#[derive(Clone, Copy)]
#[repr(C)]
pub struct Value {
    pub code: u32,
    pub value: u32,
}

#[derive(Clone, Copy)]
#[repr(C)]
pub struct Area {
    pub code: u32,
    pub left: u32,
    pub top: u32,
    pub right: u32,
    pub bottom: u32,
}

// sent is 1, or 0 for idle.
#[derive(Clone, Copy)]
#[repr(C)]
pub struct Sent {
    pub code: u32,
    pub sent: u32,
    pub line: u32,
    pub left: u32,
    pub right: u32,
}
