// A script run: its calls made one after another, and what each prints.
ghost use Rattle.std.specs.Prelude.{◌≡◌, [], ◌≤◌, length};
ghost use Rattle.model.specs.Refusals.{code_of};
ghost use Rattle.model.specs.Calls.{lent, numbers_beside, line_sent_numbers};
ghost use Rattle.model.specs.Script.Read.{read_script};
ghost use Rattle.model.specs.Script.Output.{said, line_prints, ending, run_lines, longest, script_text};
ghost use Rattle.script.specs.Meaning.{meaning};
ghost use Rattle.script_run.specs.Buffers.{Wrote, HasRoom, Appended, BuffersSized, Answered, longest_text};

use crate::output::Output;
use caption::answer::number_of;
use model::SentLine;
use model::glass::{MEMORY_BYTES, RECORD_BYTES, SCREEN_BYTES};
use model::refusal::Refusal;
use record::glass::glass_of;
use record::panels::panel_at;
use script::Form;
use script::reader::Reader;

const GRAPHICS_BASE: u16 = 4096;

const TEXT_BASE: u16 = 8192;

const LONGEST: usize = 4096;

// What a call prints that answers a code alone.
fn put_done(out: &mut Output<'_>, answer: Result<(), Refusal>)
    requires { HasRoom (said (code_of answer) []) out.old }
    ensures { Appended (said (code_of answer) []) out.old out.new }
{
    match answer {
        Ok(()) => out.put_text(b"(done)\n"),
        Err(refusal) => out.put_printed(b"refused", &[number_of(refusal)]),
    }
}

fn put_sent(out: &mut Output<'_>, answer: Result<Option<SentLine>, Refusal>)
    requires { HasRoom (said (code_of answer) (numbers_beside 4 line_sent_numbers answer)) out.old }
    ensures { Appended (said (code_of answer) (numbers_beside 4 line_sent_numbers answer)) out.old out.new }
{
    match answer {
        Ok(sent) => match sent {
            Some(s) => out.put_printed(b"sent", &[s.line as u32, s.left as u32, s.right as u32]),
            None => out.put_text(b"(idle)\n"),
        },
        Err(refusal) => out.put_printed(b"refused", &[number_of(refusal)]),
    }
}

// One line: its call is made, and what it prints is written.
fn answer_line(
    out: &mut Output<'_>,
    n: u32,
    form: Form,
    rec: &mut [u8],
    memory: &mut [u8],
    panel: &mut [u8],
)
    requires { HasRoom (line_prints n (meaning form) (lent rec.old memory.old panel.old)) out.old }
    ensures { Answered n (meaning form) out.old (lent rec.old memory.old panel.old) out.new (lent rec.new memory.new panel.new) }
{
    match form {
        Form::Point(x, y, mode) => {
            let answer = caption::points::caption_draw_point(rec, memory, x, y, mode);
            put_done(out, answer);
        }
        Form::Line(x1, y1, x2, y2, mode) => {
            let answer = caption::lines::caption_draw_line(rec, memory, x1, y1, x2, y2, mode);
            put_done(out, answer);
        }
        Form::Poke(address, byte) => {
            let answer = caption::poke::caption_write_byte(rec, memory, address, byte);
            put_done(out, answer);
        }
        Form::Send => {
            let answer = caption::sends::caption_send(rec, memory, panel, 0);
            put_sent(out, answer);
        }
        Form::Bad => out.put_printed(b"bad", &[n]),
    }
}

// The last line.
fn put_ending(out: &mut Output<'_>, rec: &[u8], memory: &[u8], panel: &[u8])
    requires buffers_sized { BuffersSized rec.now memory.now panel.now }
    requires text_fits { HasRoom (ending (lent rec.now memory.now panel.now)) out.old }
    ensures { Appended (ending (lent rec.now memory.now panel.now)) out.old out.new }
{
    let from = GRAPHICS_BASE as usize;
    let to = from + SCREEN_BYTES;
    let differing = level::count_differing(&memory[from..to], panel);
    let glass = glass_of(rec.len());
    let left = level::lines_left(rec, panel_at(glass, 0), glass.bands);
    out.put_printed(b"end", &[differing, left]);
}

// The lines of a script, and the last line.
fn run_lines(
    script: &[u8],
    out: &mut Output<'_>,
    rec: &mut [u8],
    memory: &mut [u8],
    panel: &mut [u8],
)
    requires buffers_sized { BuffersSized rec.old memory.old panel.old }
    requires script_len_bound { length script.now ≤ longest }
    requires at_start { out.old.at ≡ 0 }
    requires text_fits { HasRoom (run_lines (read_script script.now) (lent rec.old memory.old panel.old)) out.old }
    ensures { Appended (run_lines (read_script script.now) (lent rec.old memory.old panel.old)) out.old out.new }
{
    let mut n: u32 = 1;
    for form in Reader::new(script) {
        answer_line(out, n, form, rec, memory, panel);
        n += 1;
    }
    put_ending(out, rec, memory, panel);
}

// What a script prints, from an opened state on: written to the start of out, which has room for it. Answers how many bytes that is.
pub fn run_script(
    script: &[u8],
    out: &mut [u8],
    rec: &mut [u8],
    memory: &mut [u8],
    panel: &mut [u8],
) -> usize
    requires buffers_sized { BuffersSized rec.old memory.old panel.old }
    requires script_in_bounds { length (script_text script.now) ≤ length out.old }
    ensures { Wrote 0 (script_text script.now) out.old out.new result }
{
    let mut output = Output { out, at: 0 };
    if script.len() > LONGEST {
        output.put_text(b"(long)\n");
        return output.at;
    }
    slices::clear(panel);
    let _ = caption::open::caption_open(
        rec,
        memory,
        GRAPHICS_BASE,
        TEXT_BASE,
        1,
        0,
        0,
        0,
        0,
        0,
        0,
        0,
        0,
        0,
    );
    run_lines(script, &mut output, rec, memory, panel);
    output.at
}

// The same on buffers made for the run, with room in out for what any script prints.
pub fn run_alone(script: &[u8], out: &mut [u8]) -> usize
    requires { longest_text ≤ length out.old }
    ensures text { Wrote 0 (script_text script.now) out.old out.new result }
    ensures within { result ≤ length out.new }
{
    let mut rec = [0u8; RECORD_BYTES];
    let mut memory = [0u8; MEMORY_BYTES];
    let mut panel = [0u8; SCREEN_BYTES];
    run_script(script, out, &mut rec, &mut memory, &mut panel)
}
