// From 0 on: times 31 plus the next byte, modulo 2^32, over what the reference has too.
use record::glass::glass_of;
use record::panels::panel_at;

fn add_byte(sum: u32, byte: u8) -> u32 {
    sum.wrapping_mul(31).wrapping_add(u32::from(byte))
}

// All but owed, in hand and lines sent of each panel, which the reference has not: the first panel's part lies between head and keys, the others behind the flags.
fn add_record(rec: &[u8]) -> u32 {
    let glass = glass_of(rec.len());
    let start = panel_at(glass, 0);
    let mut sum = 0;
    for (i, byte) in rec.iter().enumerate() {
        if i < start || (glass.keys..glass.others).contains(&i) {
            sum = add_byte(sum, *byte);
        }
    }
    sum
}

pub fn of(rec: &[u8], memory: &[u8]) -> u32 {
    memory
        .iter()
        .fold(add_record(rec), |sum, byte| add_byte(sum, *byte))
}
