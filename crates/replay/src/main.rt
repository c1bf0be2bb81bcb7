// Runs a stored list of calls over the core: reads them from standard input and prints for each the answer and a checksum of what it left.
// The file stdout beside src/ is what the reference printed of the list in stdin (compare/README.md, "The replay").
#![tactic(auto)]

mod checksum;

use standard_output::StandardOutput;
use std::fmt::Write;
use stored_calls::run;

// A line of output: the answer's numbers and the checksum, in decimal, with single spaces. The list ends where fewer than sixteen bytes are left.
fn main() {
    let mut rec = [0u8; model::glass::RECORD_BYTES];
    let mut memory = [0u8; model::glass::MEMORY_BYTES];
    for _ in 0..u64::MAX {
        let mut stored = [0u8; 16];
        if io::read_full(0, &mut stored) < stored.len() {
            break;
        }
        let answer = run::run(&mut rec, &mut memory, &stored);
        let sum = checksum::of(&rec, &memory);
        let _ = writeln!(StandardOutput, "{answer} {sum}");
    }
}
