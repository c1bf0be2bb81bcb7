// The stand-in fonts of compare/fonts, made by its rule.
ghost use Rattle.std.specs.Prelude.{◌≤◌, length};

// The top byte of (number * 65,537 + place) * 2,654,435,761 modulo 2^32.
fn font_byte(number: u64, place: u64) -> u8
    requires { (number ≤ 5) × (place ≤ 1000000) }
{
    ((number * 65537 + place) * 2654435761 % 4294967296 / 16777216) as u8
}

pub fn make(font: &mut [u8], number: u64)
    requires { (number ≤ 5) × (length font.old ≤ 1000000) }
{
    for (i, byte) in font.iter_mut().enumerate() {
        *byte = font_byte(number, i as u64);
    }
}
