// Row, column and print mode.
ghost use Rattle.std.specs.Prelude.{◌≡◌, [], length};
ghost use Rattle.model.specs.Glass.{glass_of};
ghost use Rattle.model.specs.Calls.{get_row, get_column, set_row, set_column, set_print_mode, lent, answered, value_numbers, outcome};

use caption::answer;
use model::Value;

#[unsafe(no_mangle)]
pub extern "C" fn caption_get_row(rec: &[u8]) -> Value
    ensures { answered result.code (value_numbers result) (lent rec.now [] []) ≡ outcome (glass_of (length rec.now)) get_row (lent rec.now [] []) }
{
    answer::value(caption::place::caption_get_row(rec))
}

#[unsafe(no_mangle)]
pub extern "C" fn caption_get_column(rec: &[u8]) -> Value
    ensures { answered result.code (value_numbers result) (lent rec.now [] []) ≡ outcome (glass_of (length rec.now)) get_column (lent rec.now [] []) }
{
    answer::value(caption::place::caption_get_column(rec))
}

#[unsafe(no_mangle)]
pub extern "C" fn caption_set_row(rec: &mut [u8], row: u8) -> u32
    ensures { answered result [] (lent rec.new [] []) ≡ outcome (glass_of (length rec.old)) (set_row row) (lent rec.old [] []) }
{
    answer::code(caption::place::caption_set_row(rec, row))
}

#[unsafe(no_mangle)]
pub extern "C" fn caption_set_column(rec: &mut [u8], column: u8) -> u32
    ensures { answered result [] (lent rec.new [] []) ≡ outcome (glass_of (length rec.old)) (set_column column) (lent rec.old [] []) }
{
    answer::code(caption::place::caption_set_column(rec, column))
}

#[unsafe(no_mangle)]
pub extern "C" fn caption_set_print_mode(rec: &mut [u8], mode: u8) -> u32
    ensures { answered result [] (lent rec.new [] []) ≡ outcome (glass_of (length rec.old)) (set_print_mode mode) (lent rec.old [] []) }
{
    answer::code(caption::place::caption_set_print_mode(rec, mode))
}
