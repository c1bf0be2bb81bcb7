// `paint_bitmap` by bytes. Screen and source lie in one memory: the painter is lent that memory, and told where the two begin.
#![tactic(auto)]

ghost use Rattle.std.specs.Prelude.{◌||◌, ◌≡◌, ◌+◌, ◌-◌, ◌*◌, ◌≤◌, ◌<◌, leb, length};
ghost use Rattle.model.specs.Geometry.{base, screen_bytes};
ghost use Rattle.model.specs.Bitmaps.{source_bytes};
ghost use Rattle.laws.specs.PaintedMemory.{pixel_at, Placed, line_in, Copied};
ghost use Rattle.bitmap_bytes.specs.InMemory.{size, InMemory, clip_painted, Holds, BitmapDrawn};

use bit_runs::paint_bits;
use bitmap::{Clip, SOURCE_BYTES, source_bytes};
use marks::span::no_marks;
use model::glass::SCREEN_BYTES;
use model::{Canvas, Marks, PaintMode};

// The largest screen, and the longest source after it.
const BOTH_BYTES: usize = SCREEN_BYTES + SOURCE_BYTES;

// Pixel (x, y) of the lines of `stride` bytes that begin at byte `at`, as a bit of memory.
fn bit_of(at: usize, stride: usize, x: usize, y: usize) -> usize
    requires { (at + stride * y ≤ 65536) × (x ≤ 256) }
    ensures { result ≡ pixel_at at stride x y }
{
    8 * (at + stride * y) + x
}

// Line y of the screen by line j of the source.
fn paint_line(
    clip: Clip,
    memory: &mut [u8],
    screen: usize,
    source: usize,
    j: usize,
    y: usize,
    mode: PaintMode,
)
    requires in_memory { InMemory clip screen source memory.old }
    requires inside { (j < clip.picture.height) × (y < clip.canvas.height) }
    ensures { memory.new ≡ line_in screen source clip.canvas.stride clip.picture.stride mode clip.across j y memory.old }
{
    let across = clip.across;
    let to = bit_of(screen, clip.canvas.stride, across.from, y);
    let from = bit_of(source, clip.picture.stride, across.skip, j);
    paint_bits(memory, to, from, across.to - across.from, mode);
}

fn paint_lines(clip: Clip, memory: &mut [u8], screen: usize, source: usize, mode: PaintMode)
    requires { InMemory clip screen source memory.old }
    ensures { memory.new ≡ clip_painted clip screen source mode memory.old }
{
    let down = clip.down;
    for y in down.from..down.to {
        let j = down.skip + (y - down.from);
        paint_line(clip, memory, screen, source, j, y, mode);
    }
}

// Whole lines follow one another on the screen and in the source, so they are one run of bits.
fn paint_clip(clip: Clip, memory: &mut [u8], screen: usize, source: usize, mode: PaintMode)
    requires { InMemory clip screen source memory.old }
    ensures { memory.new ≡ clip_painted clip screen source mode memory.old }
{
    let stride = clip.canvas.stride;
    let bytes = clip.picture.stride;
    let across = clip.across;
    let down = clip.down;
    let count = across.to - across.from;
    if count == 8 * stride && bytes == stride {
        let to = bit_of(screen, stride, across.from, down.from);
        let from = bit_of(source, bytes, across.skip, down.skip);
        paint_bits(memory, to, from, count * (down.to - down.from), mode);
        return;
    }
    paint_lines(clip, memory, screen, source, mode);
}

// Screen and source to `both`, one after the other.
fn copy_both(
    memory: &[u8],
    both: &mut [u8],
    screen: usize,
    size: usize,
    source: usize,
    count: usize,
)
    requires { (screen + size ≤ length memory.now) × (source + count ≤ length memory.now) × (size + count ≤ length both.old) }
    ensures { Copied screen size source count memory.now both.old both.new }
{
    let to = screen + size;
    let end = source + count;
    slices::put_bytes(both, 0, &memory[screen..to]);
    slices::put_bytes(both, size, &memory[source..end]);
}

// The bytes of a canvas.
fn size(canvas: Canvas) -> usize
    ensures { result ≡ size canvas }
{
    canvas.stride * canvas.height
}

// A picture that may share bytes with the screen: both are copied, the copy of the screen is painted and put back.
fn paint_copied(clip: Clip, memory: &mut [u8], screen: usize, source: usize, mode: PaintMode)
    requires in_memory { (screen + size clip.canvas ≤ length memory.old) × (source + size clip.picture ≤ length memory.old) × (length memory.old ≤ 65536) }
    requires room { size clip.canvas ≤ screen_bytes base }
    ensures { memory.new ≡ clip_painted clip screen source mode memory.old }
{
    let room = size(clip.canvas);
    let count = size(clip.picture);
    let mut both = [0u8; BOTH_BYTES];
    copy_both(memory, &mut both, screen, room, source, count);
    paint_clip(clip, &mut both, 0, room, mode);
    slices::put_bytes(memory, screen, &both[..room]);
}

// Whether the source has no byte in common with the screen.
fn is_apart(screen: usize, size: usize, source: usize, count: usize) -> bool
    requires { (screen + size ≤ 65536) × (source + count ≤ 65536) }
    ensures { result ≡ (leb (screen + size) source || leb (source + count) screen) }
{
    (screen + size <= source) | (source + count <= screen)
}

// The bitmap of `paint_bitmap`, a byte of the screen at a time: all source bytes count as they were before the call.
pub fn paint_bitmap_by_bytes(
    canvas: Canvas,
    memory: &mut [u8],
    screen: usize,
    source: usize,
    x: i32,
    y: i32,
    width: u8,
    lines: u8,
    mode: PaintMode,
) -> Marks
    requires holds { Holds canvas screen source width lines memory.old }
    requires room { size canvas ≤ screen_bytes base }
    ensures { BitmapDrawn canvas screen source x y width lines mode result memory.old memory.new }
{
    let Some(clip) = Clip::new(canvas, x, y, width, lines) else {
        return no_marks();
    };
    let count = source_bytes(width, lines);
    if is_apart(screen, size(canvas), source, count) {
        paint_clip(clip, memory, screen, source, mode);
    } else {
        paint_copied(clip, memory, screen, source, mode);
    }
    clip.marks()
}
