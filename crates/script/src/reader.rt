// The reader: the lent script and its place in it.
ghost use Rattle.std.specs.Prelude.{◌≡◌, take, drop};
ghost use Rattle.std.specs.Iterator.{YieldsFirstBy, item_count};
ghost use Rattle.script.specs.Meaning.{meaning};
ghost use Rattle.script.specs.Lines.{line_of, lines_from, reads_from};

use crate::{Form, forms, split};

#[derive(Clone, Copy)]
pub struct Reader<'a> {
    pub src: &'a [u8],
    pub at: usize,
}

impl<'a> Reader<'a> {
    // A reader at the start of a script.
    pub fn new(src: &'a [u8]) -> Reader<'a>
        ensures { (result.src ≡ src.entry) × (result.at ≡ 0) }
    {
        Reader { src, at: 0 }
    }

    // The line at the reader's place, which moves behind it. Where no line stands it stays.
    pub fn next_line(&mut self) -> Option<&'a [u8]>
        ensures same_script { self.new.src ≡ self.old.src }
        ensures line_here { line_of result ≡ take 1 (lines_from self.old.at self.old.src.now) }
        ensures moves_behind { lines_from self.new.at self.old.src.now ≡ drop 1 (lines_from self.old.at self.old.src.now) }
    {
        let line = split::line_at(self.src, self.at)?;
        self.at += line.len() + 1;
        Some(line)
    }
}

// The lines from the reader's place on, each as what it says.
impl<'a> Iterator for Reader<'a> {
    type Item = Form;

    ghost next_gives = { YieldsFirstBy meaning (λ r. reads_from r.at r.src.now) };

    ghost remaining = { item_count (λ r. reads_from r.at r.src.now) };

    fn next(&mut self) -> Option<Form> {
        let line = self.next_line()?;
        Some(forms::read_line(line))
    }
}
