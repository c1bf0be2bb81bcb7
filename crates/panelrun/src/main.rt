// Runs the script on standard input and writes what it prints. One byte more than a script may have is read, so that a longer one is known.
#![tactic(auto)]

fn main() {
    let mut script = [0u8; 4097];
    let n = io::read_full(0, &mut script);
    let mut out = [0u8; 163900];
    let end = script_run::runner::run_alone(&script[..n], &mut out);
    io::write_all(1, &out[..end]);
}
