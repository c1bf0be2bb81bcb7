// The source of a bitmap: its lines one after another, each starting on a byte.
ghost use Rattle.std.specs.Prelude.{◌≡◌};
ghost use Rattle.model.specs.Geometry.{memory_bytes};
ghost use Rattle.model.specs.Bitmaps.{source_stride, source_bytes, source_fits};

// The longest source, 255 lines of 32 bytes.
pub const SOURCE_BYTES: usize = 8160;

// A line of the source in bytes.
pub fn source_stride(width: u8) -> usize
    ensures { result ≡ source_stride width }
{
    (width as usize).div_ceil(8)
}

pub fn source_bytes(width: u8, lines: u8) -> usize
    ensures { result ≡ source_bytes width lines }
{
    source_stride(width) * (lines as usize)
}

// Whether the source ends within a memory of `size` bytes; a bitmap of zero size has none.
#[tactic(auto, unfolding(model::specs::Bitmaps::source_fits))]
pub fn source_fits(size: usize, address: u16, width: u8, lines: u8) -> bool
    requires { size ≡ memory_bytes }
    ensures { result ≡ source_fits address width lines }
{
    let end = (address as usize) + source_bytes(width, lines);
    (width == 0) | (lines == 0) | (end <= size)
}
