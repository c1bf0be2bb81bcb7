// The walk over the text's cells.
ghost use Rattle.std.specs.Prelude.{◌&&◌, ◌≡◌, ◌+◌, ◌≤◌, ◌<◌, leb, length, get_or};
ghost use Rattle.model.specs.Flush.{spot, is_last, kind_of, shown_at, cells_taken, spot_after, next_spot};
ghost use Rattle.flush.specs.Fits.{blank_cells};

use model::{CellKind, Shown, Spot};

// Cells past the last one count as zero.
fn byte_at(text: &[u8], cell: usize) -> u8
    ensures { result ≡ get_or text.now cell 0 }
{
    text.get(cell).copied().unwrap_or(0)
}

// Whether `count` cells from one on are there and zero.
pub fn are_blank(text: &[u8], at: usize, count: usize) -> bool
    requires { (at ≤ 65535) × (count ≤ 65535) }
    ensures { result ≡ (leb (at + count) (length text.now) && blank_cells text.now at count) }
{
    let end = at + count;
    if text.len() < end {
        return false;
    }
    let mut ok = true;
    for b in &text[at..end] {
        ok = ok & (*b == 0);
    }
    ok
}

pub fn start() -> Spot
    ensures { result ≡ spot 0 0 0 }
{
    Spot {
        cell: 0,
        row: 0,
        column: 0,
    }
}

#[tactic(auto, unfolding(model::specs::Flush::is_last))]
fn is_last(columns: usize, rows: usize, s: Spot) -> bool
    requires { (s.column < columns) × (s.row < rows) }
    ensures { result ≡ is_last columns rows s }
{
    (s.row + 1 == rows) & (s.column + 1 == columns)
}

#[tactic(auto, unfolding(model::specs::Flush::kind_of))]
fn kind_of(columns: usize, rows: usize, b: u8, s: Spot) -> CellKind
    requires { (s.column < columns) × (s.row < rows) }
    ensures { result ≡ kind_of columns rows b s }
{
    match b {
        0 => CellKind::Blank,
        1..=127 => CellKind::Single,
        _ if is_last(columns, rows, s) => CellKind::Code,
        _ => CellKind::Pair,
    }
}

pub fn shown_at(columns: usize, rows: usize, text: &[u8], s: Spot) -> Shown
    requires { (s.column < columns) × (s.row < rows) × (s.cell ≤ 65535) }
    ensures { result ≡ shown_at columns rows text.now s }
{
    let lead = byte_at(text, s.cell);
    let trail = byte_at(text, s.cell + 1);
    Shown {
        spot: s,
        lead,
        trail,
        kind: kind_of(columns, rows, lead, s),
    }
}

// How many cells it takes.
#[tactic(auto, unfolding(model::specs::Flush::cells_taken))]
fn cells_taken(kind: CellKind) -> usize
    ensures { result ≡ cells_taken kind }
{
    match kind {
        CellKind::Pair => 2,
        CellKind::Blank | CellKind::Single | CellKind::Code => 1,
    }
}

// Reading just goes on; a row that is full leads to column 0 below.
#[tactic(auto, unfolding(model::specs::Flush::spot_after))]
pub fn spot_after(columns: usize, s: Spot, k: usize) -> Spot
    requires { (s.cell ≤ 65535) × (s.column ≤ 65535) × (s.row ≤ 65535) × (k ≤ 65535) }
    ensures { result ≡ spot_after columns s k }
{
    let cell = s.cell + k;
    let column = s.column + k;
    if column < columns {
        Spot {
            cell,
            row: s.row,
            column,
        }
    } else {
        Spot {
            cell,
            row: s.row + 1,
            column: 0,
        }
    }
}

pub fn next_spot(columns: usize, w: Shown) -> Spot
    requires { (w.spot.cell ≤ 65535) × (w.spot.column ≤ 65535) × (w.spot.row ≤ 65535) }
    ensures { result ≡ next_spot columns w }
{
    spot_after(columns, w.spot, cells_taken(w.kind))
}
