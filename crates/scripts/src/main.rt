// Runs one script after another and writes what each prints: each form, each kind of unreadable line, and scripts of the greatest length and longer.
#![tactic(auto)]

fn show(script: &[u8]) {
    let mut out = [0u8; 163900];
    let end = script_run::runner::run_alone(script, &mut out);
    io::write_all(1, &out[..end]);
}

// Lines that are forms.
fn readable() {
    show(b"(point (3 0) or)\n(send)\n");
    show(b"(send)\n(point (3 0) or)\n");
    show(b"(send)\n(point (3 0) or)\n(point (3 79) or)\n");
    show(b"(line (0 0) (2 1) xor)\n(poke 4096 255)\n(send)");
    show(
        b"(point (255 255) clear)\n(point (0 79) unknown)\n(line (0 0) (255 255) or)\n(poke 65535 0)\n(poke 0 255)\n",
    );
    show(b"");
    show(b"(send)");
}

// Lines that are no form.
fn unreadable() {
    show(b"\n");
    show(b"\n\n(send)\n\n");
    show(
        b"(point (256 0) or)\n(point (0 256) or)\n(poke 65536 0)\n(poke 0 256)\n(poke 100000 1)\n(poke 4294967296 1)\n",
    );
    show(
        b"(point (03 0) or)\n(point (3 00) or)\n(poke 04096 1)\n(point (-3 0) or)\n(point ( 0) or)\n(point (+3 0) or)\n",
    );
    show(
        b"(point  (3 0) or)\n(point (3  0) or)\n (point (3 0) or)\n(point (3 0) or) \n(point (3 0)or)\n( send)\n(send )\n",
    );
    show(
        b"(point (3 0) OR)\n(point (3 0) ors)\n(point (3 0) copy)\n(point (3 0))\n(Send)\n(sends)\nsend\n(send\n(send))\n()\n(",
    );
    show(
        b"(send)\r\n(send)\t\n\t(send)\n(send)\x80\n\x00\n(send)(send)\n(box (0 0) (1 1) 1 or)\n(point (# #) *)\n",
    );
}

fn main() {
    readable();
    unreadable();
    show(&[32u8; 4096]);
    show(&[32u8; 4097]);
}
