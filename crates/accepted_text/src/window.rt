// Where a window of memory lies.
ghost use Rattle.std.specs.Prelude.{◌≡◌, ◌+◌, ◌≤◌};

use std::ops::Range;

// So many bytes from a base on.
pub(crate) fn window(base: u16, bytes: usize) -> Range<usize>
    requires { bytes ≤ 65536 }
    ensures { result ≡ record { start = base; end = base + bytes } }
{
    let from = base as usize;
    from..from + bytes
}
