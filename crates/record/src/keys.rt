// Key addresses, and memory as `new` and `reset` leave it.
ghost use Rattle.std.specs.Prelude.{◌≡◌, length};
ghost use Rattle.model.specs.Glass.{geometry, glass_of};
ghost use Rattle.model.specs.Record.{record_bytes, decode};
ghost use Rattle.model.specs.Open.{is_key, with_keys, clear_memory};

use crate::glass;
use model::glass::Glass;

#[tactic(auto, using(laws::specs::Loops::key_test, laws::specs::Loops::no_key))]
pub fn is_key(rec: &[u8], glass: Glass, a: usize) -> bool
    requires { length rec.now ≡ record_bytes (geometry glass) }
    ensures { result ≡ is_key (decode (geometry glass) rec.now).keys a }
{
    if a < 256 {
        let word = slices::load_four(rec, glass.keys + 4 * (a / 32));
        let bit = a % 32;
        return (word >> bit) % 2 == 1;
    }
    false
}

// 0xff at each key address.
#[tactic(auto, using(laws::specs::Loops::keys_set, laws::specs::Loops::keys_kept), unfolding(model::specs::Open::with_keys))]
fn write_keys(rec: &[u8], glass: Glass, memory: &mut [u8])
    requires { (length rec.now ≡ record_bytes (geometry glass)) × (length memory.old ≡ 65536) }
    ensures { memory.new ≡ with_keys (decode (geometry glass) rec.now).keys 256 memory.old }
{
    for a in 0..256 {
        if is_key(rec, glass, a) {
            memory[a] = 255;
        }
    }
}

pub fn clear_memory(rec: &[u8], memory: &mut [u8])
    requires { (length rec.now ≡ record_bytes (glass_of (length rec.now))) × (length memory.old ≡ 65536) }
    ensures { memory.new ≡ clear_memory (decode (glass_of (length rec.now)) rec.now).keys }
{
    slices::clear(memory);
    memory[65535] = 64;
    write_keys(rec, glass::glass_of(rec.len()), memory);
}
