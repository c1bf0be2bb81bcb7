// A run of bits of memory painted by other bits of it, a byte at a time. Bit i of memory is bit 0x80 >> (i mod 8) of byte i / 8: the pixels of a line are such a run.
#![tactic(auto)]

ghost use Rattle.std.specs.Prelude.{◌≡◌, ◌∷◌, ◌+◌, ◌-◌, ◌*◌, ◌≤◌, ◌<◌, length, get_or, set};
ghost use Rattle.laws.specs.Bytes.{mixed};
ghost use Rattle.laws.specs.PaintedBits.{shifted, source_byte, paint_byte, mask_painted, painted_bits, Apart};

use model::PaintMode;
use pixels::run::{end_mask, start_mask};

// The eight bits that begin `shift` bits into a, which b follows.
fn shifted(a: u8, b: u8, shift: u8) -> u8
    requires { shift < 8 }
    ensures { result ≡ shifted shift a b }
{
    let pair = (a as u16) * 256 + (b as u16);
    ((pair >> (8 - shift)) % 256) as u8
}

// What the mode makes of a source byte and of the byte that it finds.
fn paint_byte(mode: PaintMode, s: u8, v: u8) -> u8
    ensures { result ≡ paint_byte mode s v }
{
    match mode {
        PaintMode::Copy => s,
        PaintMode::Or => s | v,
        PaintMode::Not => !s,
        PaintMode::And => s & v,
        PaintMode::Xor => s ^ v,
    }
}

// A byte with the bits of the mask taken from another.
fn mix(mask: u8, from: u8, onto: u8) -> u8
    ensures { result ≡ mixed mask from onto }
{
    (from & mask) | (onto & !mask)
}

// Byte i, or 0 after the last one.
fn byte_at(memory: &[u8], i: usize) -> u8
    ensures { result ≡ get_or memory.now i 0 }
{
    memory.get(i).copied().unwrap_or(0)
}

// The byte before byte i, or 0 before the first one.
fn byte_before(memory: &[u8], i: usize) -> u8
    ensures { result ≡ get_or (0 ∷ memory.now) i 0 }
{
    if i == 0 { 0 } else { byte_at(memory, i - 1) }
}

// The eight bits from bit i - 8 on. At the edge of a run some of them lie outside the source, or outside memory, where they are 0: a mask leaves them out.
fn source_byte(memory: &[u8], i: usize) -> u8
    ensures { result ≡ source_byte memory.now i }
{
    let at = i / 8;
    let a = byte_before(memory, at);
    let b = byte_at(memory, at);
    shifted(a, b, (i % 8) as u8)
}

// The bits of the mask in byte `at`, by the source bits from i - 8 on; its other bits stay.
fn paint_masked(memory: &mut [u8], at: usize, mask: u8, i: usize, mode: PaintMode)
    requires { at < length memory.old }
    ensures { memory.new ≡ set memory.old at (mask_painted mode mask (source_byte memory.old i) (get_or memory.old at 0)) }
{
    let s = source_byte(memory, i);
    let v = memory[at];
    memory[at] = mix(mask, paint_byte(mode, s, v), v);
}

// The bytes from `from` up to `to`, by the bytes from `source` on.
fn paint_aligned(memory: &mut [u8], from: usize, to: usize, source: usize, mode: PaintMode)
    requires in_memory { (from ≤ to) × (to ≤ length memory.old) × (source + (to - from) ≤ length memory.old) }
    requires apart { Apart (8 * from) (8 * source) (8 * (to - from)) }
    ensures { memory.new ≡ painted_bits mode (8 * source) (8 * from) (8 * (to - from)) memory.old }
{
    for at in from..to {
        let i = source + (at - from);
        memory[at] = paint_byte(mode, memory[i], memory[at]);
    }
}

// The bytes from `from` up to `to`, by the bits that begin `shift` bits into byte `source`.
fn paint_shifted(
    memory: &mut [u8],
    from: usize,
    to: usize,
    source: usize,
    shift: u8,
    mode: PaintMode,
)
    requires in_memory { (from ≤ to) × (to ≤ length memory.old) × (source + (to - from) < length memory.old) × (shift < 8) }
    requires apart { Apart (8 * from) (8 * source + shift) (8 * (to - from)) }
    ensures { memory.new ≡ painted_bits mode (8 * source + shift) (8 * from) (8 * (to - from)) memory.old }
{
    for at in from..to {
        let i = source + (at - from);
        let s = shifted(memory[i], memory[i + 1], shift);
        memory[at] = paint_byte(mode, s, memory[at]);
    }
}

// The bytes from `from` up to `to`, by the bits from bit i on. One more bit of the source follows them.
fn paint_bytes(memory: &mut [u8], from: usize, to: usize, i: usize, mode: PaintMode)
    requires in_memory { (from ≤ to) × (to ≤ length memory.old) × (i + 8 * (to - from) < 8 * length memory.old) }
    requires apart { Apart (8 * from) i (8 * (to - from)) }
    ensures { memory.new ≡ painted_bits mode i (8 * from) (8 * (to - from)) memory.old }
{
    let source = i / 8;
    let shift = (i % 8) as u8;
    if shift == 0 {
        paint_aligned(memory, from, to, source, mode);
        return;
    }
    paint_shifted(memory, from, to, source, shift, mode);
}

// `count` bits from bit `to` on, by those from bit `from` on: a mask for the first byte, a mask for the last, whole bytes between them.
pub fn paint_bits(memory: &mut [u8], to: usize, from: usize, count: usize, mode: PaintMode)
    requires in_memory { (0 < count) × (to + count ≤ 8 * length memory.old) × (from + count ≤ 8 * length memory.old) }
    requires apart { Apart to from count }
    requires small { length memory.old ≤ 65536 }
    ensures { memory.new ≡ painted_bits mode from to count memory.old }
{
    let end = to + count - 1;
    let first = to / 8;
    let last = end / 8;
    let start = start_mask(to);
    let stop = end_mask(end);
    let i = from + 8 - to % 8;
    if first == last {
        paint_masked(memory, first, start & stop, i, mode);
        return;
    }
    paint_masked(memory, first, start, i, mode);
    paint_bytes(memory, first + 1, last, i, mode);
    paint_masked(memory, last, stop, i + 8 * (last - first), mode);
}
