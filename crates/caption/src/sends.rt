// `caption_send`.
ghost use Rattle.std.specs.Prelude.{◌≡◌, length};
ghost use Rattle.model.specs.Glass.{glass_of};
ghost use Rattle.model.specs.Refusals.{code_of};
ghost use Rattle.model.specs.Calls.{send, lent, answered, numbers_beside, line_sent_numbers, outcome};

use accepted::sends;
use model::SentLine;
use model::glass::MEMORY_BYTES;
use model::refusal::Refusal;
use record::entry;
use record::glass::glass_of;

// To the panel of that number, whose buffer is lent: the line that was sent, or none.
pub fn caption_send(
    rec: &mut [u8],
    memory: &[u8],
    panel: &mut [u8],
    number: u8,
) -> Result<Option<SentLine>, Refusal>
    ensures { answered (code_of result) (numbers_beside 4 line_sent_numbers result) (lent rec.new memory.now panel.new) ≡ outcome (glass_of (length rec.old)) (send number) (lent rec.old memory.now panel.old) }
{
    let glass = glass_of(rec.len());
    entry::enter(
        rec,
        (memory.len() == MEMORY_BYTES) & (panel.len() == glass.screen),
    )?;
    let k = number as usize;
    if k >= glass.panels {
        return Err(Refusal::Panel);
    }
    Ok(sends::line_sent(sends::send_line(rec, memory, panel, k)))
}
