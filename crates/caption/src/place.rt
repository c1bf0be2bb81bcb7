// Row, column and print mode.
ghost use Rattle.std.specs.Prelude.{◌≡◌, [], ◌∷◌, length};
ghost use Rattle.model.specs.Glass.{glass_of};
ghost use Rattle.model.specs.Refusals.{code_of};
ghost use Rattle.model.specs.Calls.{get_row, get_column, set_row, set_column, set_print_mode, lent, answered, numbers_beside, outcome};

use model::refusal::Refusal;
use record::entry;
use record::glass::glass_of;
use record::head::load_head;
use updates::head;

pub fn caption_get_row(rec: &[u8]) -> Result<u8, Refusal>
    ensures { answered (code_of result) (numbers_beside 1 (λ v. v ∷ []) result) (lent rec.now [] []) ≡ outcome (glass_of (length rec.now)) get_row (lent rec.now [] []) }
{
    entry::enter(rec, true)?;
    Ok(load_head(rec).row)
}

pub fn caption_get_column(rec: &[u8]) -> Result<u8, Refusal>
    ensures { answered (code_of result) (numbers_beside 1 (λ v. v ∷ []) result) (lent rec.now [] []) ≡ outcome (glass_of (length rec.now)) get_column (lent rec.now [] []) }
{
    entry::enter(rec, true)?;
    Ok(load_head(rec).column)
}

pub fn caption_set_row(rec: &mut [u8], row: u8) -> Result<(), Refusal>
    ensures { answered (code_of result) [] (lent rec.new [] []) ≡ outcome (glass_of (length rec.old)) (set_row row) (lent rec.old [] []) }
{
    entry::enter(rec, true)?;
    let glass = glass_of(rec.len());
    if (row as usize) >= glass.rows {
        return Err(Refusal::Value);
    }
    head::set_row(rec, row);
    Ok(())
}

pub fn caption_set_column(rec: &mut [u8], column: u8) -> Result<(), Refusal>
    ensures { answered (code_of result) [] (lent rec.new [] []) ≡ outcome (glass_of (length rec.old)) (set_column column) (lent rec.old [] []) }
{
    entry::enter(rec, true)?;
    let glass = glass_of(rec.len());
    if (column as usize) >= glass.columns {
        return Err(Refusal::Value);
    }
    head::set_column(rec, column);
    Ok(())
}

pub fn caption_set_print_mode(rec: &mut [u8], mode: u8) -> Result<(), Refusal>
    ensures { answered (code_of result) [] (lent rec.new [] []) ≡ outcome (glass_of (length rec.old)) (set_print_mode mode) (lent rec.old [] []) }
{
    entry::enter(rec, true)?;
    if mode > 2 {
        return Err(Refusal::Value);
    }
    head::set_print_mode(rec, mode);
    Ok(())
}
