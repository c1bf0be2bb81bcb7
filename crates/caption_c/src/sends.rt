// `caption_send`.
ghost use Rattle.std.specs.Prelude.{◌≡◌, length};
ghost use Rattle.model.specs.Glass.{glass_of};
ghost use Rattle.model.specs.Calls.{send, lent, answered, sent_numbers, outcome};

use caption::answer;
use model::Sent;

// To the panel of that number, whose buffer is lent.
#[unsafe(no_mangle)]
pub extern "C" fn caption_send(rec: &mut [u8], memory: &[u8], panel: &mut [u8], number: u8) -> Sent
    ensures { answered result.code (sent_numbers result) (lent rec.new memory.now panel.new) ≡ outcome (glass_of (length rec.old)) (send number) (lent rec.old memory.now panel.old) }
{
    answer::sent(caption::sends::caption_send(rec, memory, panel, number))
}
