// Standard output as a writer of text. It writes by the kit's crate io, and so calls nothing of C but `write`.
#![tactic(auto)]

ghost use Rattle.std.specs.Prelude.{IsOk};

use std::fmt;

#[derive(Clone, Copy)]
pub struct StandardOutput;

// What cannot be written is dropped: a program whose output is closed runs to its end.
impl fmt::Write for StandardOutput {
    fn write_str(&mut self, s: &str) -> fmt::Result
        ensures { IsOk result }
    {
        io::write_all(1, s.as_bytes());
        Ok(())
    }
}
