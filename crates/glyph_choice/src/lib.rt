// Where a pair's glyph stands: emoji, GB, extra list, else hexadecimal codes.
#![tactic(auto)]

ghost use Rattle.std.specs.Prelude.{◌≡◌, ◌+◌, ◌*◌, ◌≤◌, length};
ghost use Rattle.model.specs.Codes.{codes, in_row, index_in, emoji_index, gb_index, extra_offset};
ghost use Rattle.model.specs.Glyphs.{glyph_of};
ghost use Rattle.glyph_choice.specs.Choice.{rows_of, row_of};

use model::Glyph;

// Codes that follow one another: a lead, with its first and its last trail.
type CodeRow = (u8, u8, u8);

// The emoji of V1 in their order.
const V1: [CodeRow; 7] = [
    (250, 70, 126),
    (250, 161, 254),
    (251, 64, 126),
    (251, 161, 254),
    (252, 64, 126),
    (252, 161, 254),
    (253, 64, 125),
];

// Those of V2.
const V2: [CodeRow; 6] = [
    (248, 161, 254),
    (249, 161, 254),
    (250, 161, 254),
    (251, 161, 254),
    (252, 161, 254),
    (253, 161, 217),
];

// The place of a code among those of all rows.
fn index_in(rows: &[CodeRow], lead: u8, trail: u8) -> Option<usize>
    requires { length rows.now ≤ 16 }
    ensures { result ≡ index_in (rows_of rows.now) 0 lead trail }
{
    let mut before: usize = 0;
    for &(row, first, last) in rows {
        if (lead == row) & (first <= trail) & (trail <= last) {
            return Some(before + (trail - first) as usize);
        }
        before += (last as usize + 1).saturating_sub(first as usize);
    }
    None
}

// The least lead of an emoji, in either version.
const EMOJI_LEAD: u8 = 248;

// The rows are searched for such leads alone.
#[tactic(auto, unfolding(model::specs::Codes::emoji_index), using(laws::specs::Glyphs::index_v1, laws::specs::Glyphs::index_v2, laws::specs::Glyphs::no_emoji))]
fn emoji_index(version: u8, lead: u8, trail: u8) -> Option<usize>
    ensures { result ≡ emoji_index version lead trail }
{
    if lead < EMOJI_LEAD {
        return None;
    }
    if version == 0 {
        return index_in(&V1, lead, trail);
    }
    index_in(&V2, lead, trail)
}

// Where the row of a lead stands in the font: rows 16-87, which most characters are of, and rows 1-9. Row 16 follows row 9 there.
fn gb_row(lead: u8) -> Option<u8>
    ensures { result ≡ row_of lead }
{
    match lead {
        176..=247 => Some(lead - 167),
        161..=169 => Some(lead - 161),
        _ => None,
    }
}

#[tactic(auto, unfolding(model::specs::Codes::gb_index))]
fn gb_index(lead: u8, trail: u8) -> Option<usize>
    ensures { result ≡ gb_index lead trail }
{
    if (trail < 161) | (254 < trail) {
        return None;
    }
    let row = gb_row(lead)?;
    Some(94 * (row as usize) + (trail - 161) as usize)
}

// The offset that the first entry of the code gives.
fn extra_offset(list: &[u8], code: usize) -> Option<usize>
    ensures { result ≡ extra_offset list.now code }
{
    for k in 0..list.len() / 6 {
        let at = 6 * k;
        if (slices::load_two(list, at) as usize) == code {
            return Some(slices::load_four(list, at + 2) as usize);
        }
    }
    None
}

fn code_of(lead: u8, trail: u8) -> usize
    ensures { result ≡ 256 * lead + trail }
{
    256 * (lead as usize) + (trail as usize)
}

#[tactic(auto, unfolding(model::specs::Glyphs::glyph_of, model::specs::Glyphs::glyph_or))]
pub fn glyph_of(version: u8, list: &[u8], lead: u8, trail: u8) -> Glyph
    ensures { result ≡ glyph_of version list.now lead trail }
{
    if let Some(index) = emoji_index(version, lead, trail) {
        return Glyph::Emoji(index);
    }
    if let Some(index) = gb_index(lead, trail) {
        return Glyph::Gb(index);
    }
    match extra_offset(list, code_of(lead, trail)) {
        Some(offset) => Glyph::Extra(offset),
        None => Glyph::Hexadecimal,
    }
}
