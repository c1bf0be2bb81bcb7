// The glass that a record is for, what is drawn on there, and what lines do at its edge.
ghost use Rattle.std.specs.Prelude.{◌≡◌, length};
ghost use Rattle.model.specs.Glass.{canvas, glass_of};
ghost use Rattle.model.specs.Record.{record_bytes, decode};
ghost use Rattle.model.specs.Lines.{edge_of};
ghost use Rattle.record.specs.Entry.{Chosen};

use model::glass::{Glass, SMALL};
use model::{Canvas, Edge};

// By the record's length: there is one. A call asks for it where it needs one, so that its numbers are constants there.
pub fn glass_of(length: usize) -> Glass
    ensures { Chosen length result }
{
    SMALL
}

pub fn canvas_of(glass: Glass) -> Canvas
    ensures { result ≡ canvas glass }
{
    Canvas {
        stride: glass.stride,
        height: glass.height as usize,
    }
}

// By the edge flag of the record.
pub fn edge_of(rec: &[u8]) -> Edge
    requires { length rec.now ≡ record_bytes (glass_of (length rec.now)) }
    ensures { result ≡ edge_of (decode (glass_of (length rec.now)) rec.now).edge }
{
    let at = glass_of(rec.len()).edge;
    if rec[at] == 0 {
        Edge::Clamp
    } else {
        Edge::Stop
    }
}
