// Clipping, axis by axis: a bitmap may start before the screen and end after it.
ghost use Rattle.std.specs.Prelude.{◌≡◌, ◌<◌};
ghost use Rattle.model.specs.Bitmaps.{visible};

use model::Visible;

// What an axis of `size` places shows of n places from z on.
pub fn visible(z: i32, n: usize, size: usize) -> Visible
    requires { n < 256 }
    ensures { result ≡ visible z n size }
{
    let distance = z.unsigned_abs() as usize;
    if z < 0 {
        return Visible {
            skip: distance,
            from: 0,
            to: n.saturating_sub(distance).min(size),
        };
    }
    Visible {
        skip: 0,
        from: distance,
        to: (distance + n).min(size),
    }
}
