// Open and reset: memory is cleared but for its last byte and the keys, and the whole screen is owed.
ghost use Rattle.std.specs.Prelude.{◌≡◌, [], length};
ghost use Rattle.model.specs.Glass.{glass_of};
ghost use Rattle.model.specs.Calls.{opening, reset, lent, answered, done};
ghost use Rattle.record.specs.Given.{Given};
ghost use Rattle.accepted.specs.Opened.{Opened};

use record::keys;
use updates::{open, update};

pub fn open(
    rec: &mut [u8],
    memory: &mut [u8],
    graphics: u16,
    text: u16,
    version: u8,
    keys: [u32; 8],
    edge: u8,
)
    requires { Opened rec.old memory.old graphics text version keys edge }
    ensures { answered 0 [] (lent rec.new memory.new []) ≡ done (glass_of (length rec.old)) (opening graphics text version keys edge) (lent rec.old memory.old []) }
{
    open::open_record(rec, graphics, text, version, keys, edge);
    keys::clear_memory(rec, memory);
}

pub fn reset(rec: &mut [u8], memory: &mut [u8])
    requires { Given rec.old memory.old }
    ensures { answered 0 [] (lent rec.new memory.new []) ≡ done (glass_of (length rec.old)) reset (lent rec.old memory.old []) }
{
    keys::clear_memory(rec, memory);
    update::reset_record(rec);
}
