// Where the next cell is written, and `newline`.
ghost use Rattle.std.specs.Prelude.{◌+◌, ◌^◌, ◌<◌};
ghost use Rattle.model.specs.Print.{newline_on, write_cell};
ghost use Rattle.text.specs.Written.{page, Cell, Ready, Written};

// Row and column of the next cell, and how often the text has scrolled.
#[derive(Clone, Copy)]
pub struct Place {
    pub row: usize,
    pub column: usize,
    pub scrolls: usize,
}

// A byte and its flag; the next cell is the one after it.
pub fn write_cell(
    columns: usize,
    text: &mut [u8],
    flags: &mut [u8],
    p: Place,
    b: u8,
    inverse: bool,
) -> Place
    requires { Cell columns text.old flags.old p }
    ensures { Written (write_cell columns inverse b (page text.old flags.old p)) p.scrolls text.new flags.new result }
{
    let cell = p.row * columns + p.column;
    text[cell] = b;
    flags::write_flag(flags, cell, inverse);
    Place {
        row: p.row,
        column: p.column + 1,
        scrolls: p.scrolls,
    }
}

// At column 0 it does nothing; at the last row it scrolls.
pub fn newline(rows: usize, columns: usize, text: &mut [u8], flags: &mut [u8], p: Place) -> Place
    requires ready { Ready rows columns 0 text.old flags.old p }
    requires scrolls_fit { p.scrolls + 1 < 2 ^ 64 }
    ensures { Written (newline_on rows columns (page text.old flags.old p)) (p.scrolls + 1) text.new flags.new result }
{
    if p.column == 0 {
        return p;
    }
    if p.row + 1 == rows {
        slices::scroll(text, columns);
        flags::scroll_flags(flags, columns);
        return Place {
            row: p.row,
            column: 0,
            scrolls: p.scrolls + 1,
        };
    }
    Place {
        row: p.row + 1,
        column: 0,
        scrolls: p.scrolls,
    }
}
