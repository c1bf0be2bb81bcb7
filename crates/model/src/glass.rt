// The glass by value: its geometry, and what follows from it. A call chooses it by the record's length.
ghost use Rattle.model.specs.Suits.{GlassNumbers};

#[derive(Clone, Copy)]
pub struct Glass {
    // a line in bytes; the bands, and the lines of one; the panels
    pub stride: usize,
    pub bands: usize,
    pub band: u16,
    pub panels: usize,
    // a byte's part of a line: two to RECIPROCAL_BITS by the stride, rounded up
    pub reciprocal: usize,
    // the screen in pixels and in bytes, the text cells
    pub width: u16,
    pub height: u16,
    pub screen: usize,
    pub rows: usize,
    pub columns: usize,
    pub cells: usize,
    // the highest bases: each window ends before the last byte of memory
    pub graphics: u16,
    pub text: u16,
    // the record: its bytes, those of a panel's part, and where keys, flags, the panels after the first and the edge flag begin
    pub bytes: usize,
    pub pending: usize,
    pub keys: usize,
    pub flags: usize,
    pub others: usize,
    pub edge: usize,
    pub ghost suits: { GlassNumbers (record { stride = stride; bands = bands; band = band; panels = panels }) reciprocal width height screen rows columns cells graphics text bytes pending keys flags others edge },
}

// 160 by 80, five bands, four panels. The glass's numbers stand here and nowhere else in the code.
pub const SMALL: Glass = Glass {
    stride: 20,
    bands: 5,
    band: 16,
    panels: 4,
    reciprocal: 13108,
    width: 160,
    height: 80,
    screen: SCREEN_BYTES,
    rows: 5,
    columns: 20,
    cells: TEXT_BYTES,
    graphics: 63935,
    text: 65435,
    bytes: RECORD_BYTES,
    pending: 52,
    keys: 70,
    flags: 102,
    others: 202,
    edge: 358,
};

// The bits after the point where bytes are counted in lines: they do for 256 lines of up to 32 bytes.
pub const RECIPROCAL_BITS: usize = 18;

pub const RECIPROCAL_MASK: usize = 262143;

// The head of the record, the same for every glass: the first panel's part follows it.
pub const HEAD_BYTES: usize = 18;

// The lines of a glyph, as a coordinate and as a count.
pub const GLYPH_HEIGHT: u8 = 16;

pub const GLYPH_LINES: usize = 16;

// Lengths of arrays: the text that a flush keeps, and the record and panel of a program that lends them.
pub const TEXT_BYTES: usize = 100;

pub const RECORD_BYTES: usize = 359;

pub const SCREEN_BYTES: usize = 1600;

// The registers of the glass controller.
pub const REGISTER_BYTES: usize = 8;

pub const MEMORY_BYTES: usize = 65536;
