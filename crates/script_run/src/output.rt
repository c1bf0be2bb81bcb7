// Text written into the lent output.
ghost use Rattle.std.specs.Prelude.{◌≡◌, [], ◌∷◌, ◌++◌};
ghost use Rattle.model.specs.Characters.{bytes_of};
ghost use Rattle.model.specs.Script.Output.{spelled, decimal, spaced, printed};
ghost use Rattle.script_run.specs.Buffers.{HasRoom, Appended};

// The lent bytes, and the place behind what is written.
#[derive(Drop)]
pub struct Output<'a> {
    pub out: &'a mut [u8],
    pub at: usize,
}

impl<'a> Output<'a> {
    fn put_byte(&mut self, b: u8)
        requires { HasRoom (b ∷ []) self.old }
        ensures { Appended (b ∷ []) self.old self.new }
    {
        self.out[self.at] = b;
        self.at += 1;
    }

    pub fn put_text(&mut self, text: &[u8])
        requires { HasRoom text.now self.old }
        ensures { Appended text.now self.old self.new }
    {
        let end = self.at + text.len();
        self.out[self.at..end].copy_from_slice(text);
        self.at = end;
    }

    // n in decimal, at most k digits.
    fn put_decimal(&mut self, k: usize, n: u32)
        requires { HasRoom (spelled k n) self.old }
        ensures { Appended (spelled k n) self.old self.new }
    {
        if k == 0 {
            return;
        }
        if n < 10 {
            self.put_byte(b'0' + n as u8);
        } else {
            self.put_decimal(k - 1, n / 10);
            self.put_byte(b'0' + (n % 10) as u8);
        }
    }

    // A space and a number.
    fn put_number(&mut self, n: u32)
        requires { HasRoom (bytes_of " " ++ decimal n) self.old }
        ensures { Appended (bytes_of " " ++ decimal n) self.old self.new }
    {
        self.put_byte(b' ');
        self.put_decimal(10, n);
    }

    fn put_numbers(&mut self, numbers: &[u32])
        requires { HasRoom (spaced numbers.now) self.old }
        ensures { Appended (spaced numbers.now) self.old self.new }
    {
        for n in numbers {
            self.put_number(*n);
        }
    }

    // A line of print: a word and numbers in brackets.
    pub fn put_printed(&mut self, word: &[u8], numbers: &[u32])
        requires { HasRoom (printed word.now numbers.now) self.old }
        ensures { Appended (printed word.now numbers.now) self.old self.new }
    {
        self.put_byte(b'(');
        self.put_text(word);
        self.put_numbers(numbers);
        self.put_text(b")\n");
    }
}
