// The fonts and the extra list that a flush is lent.

#[derive(Clone, Copy)]
pub struct Fonts<'a> {
    // characters of eight and of sixteen lines, a byte a line
    pub ascii8: &'a [u8],
    pub ascii16: &'a [u8],
    // glyphs of sixteen lines, two bytes a line
    pub gb: &'a [u8],
    pub emoji: &'a [u8],
    // the extra list's entries, and the font that they name places of
    pub list: &'a [u8],
    pub extra: &'a [u8],
}
