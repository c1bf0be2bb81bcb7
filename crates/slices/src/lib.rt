// Bytes of lent slices: copied, cleared, scrolled, and read or written as numbers, least byte first.
#![tactic(auto)]

ghost use Rattle.std.specs.Prelude.{◌≡◌, ◌+◌, ◌≤◌, length};
ghost use Rattle.model.specs.Memory.{with_window, zeros};
ghost use Rattle.model.specs.Print.{scrolled};
ghost use Rattle.model.specs.Bytes.{two, four, two_bytes, four_bytes};

pub fn load_two(bytes: &[u8], at: usize) -> u16
    requires { at + 2 ≤ length bytes.now }
    ensures { result ≡ two bytes.now at }
{
    u16::from_le_bytes([bytes[at], bytes[at + 1]])
}

pub fn load_four(bytes: &[u8], at: usize) -> u32
    requires { at + 4 ≤ length bytes.now }
    ensures { result ≡ four bytes.now at }
{
    u32::from_le_bytes([bytes[at], bytes[at + 1], bytes[at + 2], bytes[at + 3]])
}

// `from` over the bytes of `onto` that begin at a place.
pub fn put_bytes(onto: &mut [u8], at: usize, from: &[u8])
    requires { at + length from.now ≤ length onto.old }
    ensures { onto.new ≡ with_window at from.now onto.old }
{
    onto[at..at + from.len()].copy_from_slice(from);
}

pub fn store_two(bytes: &mut [u8], at: usize, n: u16)
    requires { at + 2 ≤ length bytes.old }
    ensures { bytes.new ≡ with_window at (two_bytes n) bytes.old }
{
    put_bytes(bytes, at, &n.to_le_bytes());
}

pub fn store_four(bytes: &mut [u8], at: usize, n: u32)
    requires { at + 4 ≤ length bytes.old }
    ensures { bytes.new ≡ with_window at (four_bytes n) bytes.old }
{
    put_bytes(bytes, at, &n.to_le_bytes());
}

// All of one slice onto another of the same length. In a loop of its own: for `copy_from_slice` between two lent slices the compiler calls memmove, which a host
// of the library need not have.
pub fn copy_bytes(from: &[u8], onto: &mut [u8])
    requires { length from.now ≡ length onto.old }
    ensures { onto.new ≡ from.now }
{
    for i in 0..from.len() {
        onto[i] = from[i];
    }
}

// Zeros over all of a lent part.
pub fn clear(part: &mut [u8])
    ensures { part.new ≡ zeros (length part.old) }
{
    part.fill(0);
}

// The first n bytes of a lent part leave, and n zeros follow. In a loop of its own too: `copy_within` is a call of memmove.
pub fn scroll(part: &mut [u8], n: usize)
    requires { n ≤ length part.old }
    ensures { part.new ≡ scrolled n 0 part.old }
{
    let left = part.len() - n;
    for i in 0..left {
        part[i] = part[i + n];
    }
    clear(&mut part[left..]);
}
