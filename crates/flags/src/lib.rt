// The inverse flags of the text cells in their lent bytes: read, written, scrolled, cleared, and held to STATE. No other code knows the form of a flag (a byte, 0 or 1).
#![tactic(auto)]

ghost use Rattle.std.specs.Prelude.{◌≡◌, ◌≤◌, ◌<◌, length};
ghost use Rattle.model.specs.Flags.{flag_bytes, flags_in, flags_fit};
ghost use Rattle.model.specs.Flush.{flag_at};
ghost use Rattle.model.specs.Memory.{zeros};
ghost use Rattle.laws.specs.Flags.{flag_room, with_flag, flags_scrolled};

// The flag of a cell; cells past the last one have none.
#[tactic(auto, using(laws::specs::Flags::flag_read, laws::specs::Flags::flag_past))]
pub fn is_inverse(flags: &[u8], cells: usize, cell: usize) -> bool
    requires { length flags.now ≡ flag_bytes cells }
    ensures { result ≡ flag_at (flags_in cells flags.now) cell }
{
    cell < cells && flags[cell] == 1
}

#[tactic(auto, unfolding(laws::specs::Flags::with_flag))]
pub fn write_flag(flags: &mut [u8], i: usize, v: bool)
    requires { i < flag_room flags.old }
    ensures { flags.new ≡ with_flag i v flags.old }
{
    flags[i] = u8::from(v);
}

// The first n flags leave, and n that are not set follow.
#[tactic(auto, unfolding(laws::specs::Flags::flags_scrolled))]
pub fn scroll_flags(flags: &mut [u8], n: usize)
    requires { n ≤ flag_room flags.old }
    ensures { flags.new ≡ flags_scrolled n flags.old }
{
    slices::scroll(flags, n);
}

// Where all bytes are zero no flag is set.
pub fn clear_flags(flags: &mut [u8])
    ensures { flags.new ≡ zeros (length flags.old) }
{
    slices::clear(flags);
}

// STATE asks of each flag that its byte is 0 or 1.
pub fn flags_fit(flags: &[u8], cells: usize) -> bool
    requires { length flags.now ≡ flag_bytes cells }
    ensures { result ≡ flags_fit cells flags.now }
{
    let mut ok = true;
    for flag in flags {
        ok &= *flag <= 1;
    }
    ok
}
