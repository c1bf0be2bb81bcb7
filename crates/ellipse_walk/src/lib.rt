// The walk along a quarter of an ellipse, in the source's 8-bit numbers. `r` is the larger radius.
#![tactic(auto)]

ghost use Rattle.std.specs.Prelude.{◌≡◌, ◌+◌, ◌-◌, ◌%◌, not, ◌&&◌, [], ◌∷◌, if◌then◌else◌, ◌==◌, nat_lt};
ghost use Rattle.model.specs.Ellipses.{start, moves, advanced, turns, turned, apart, early, x_step, y_step, part, x_parts, y_parts, step, step_parts, ended};
ghost use Rattle.ellipse_walk.specs.Walk.{axis_of, walk_of, parts_of, Stepped};

// The source's variables of one axis: fx, fx_neg, delta_x, tmp_x and inc_x, or those of y.
#[derive(Clone, Copy)]
pub struct EllipseAxis {
    pub f: u8,
    pub neg: bool,
    pub delta: u8,
    pub tmp: u8,
    pub inc: u8,
}

// Both axes, and fxy, fxy_neg and part_start.
#[derive(Clone, Copy)]
pub struct EllipseWalk {
    pub x: EllipseAxis,
    pub y: EllipseAxis,
    pub fxy: u8,
    pub neg: bool,
    pub started: bool,
}

// The part that a step draws, if any: how far its corners lie from the centre.
#[derive(Clone, Copy)]
pub enum EllipsePart {
    Nothing,
    At(u8, u8),
}

#[derive(Clone, Copy)]
pub struct EllipseStep {
    pub walk: EllipseWalk,
    pub part: EllipsePart,
}

#[tactic(auto, using(crate::proofs::Laws::start_is))]
pub fn start(r: u8, rx: u8) -> EllipseWalk
    ensures { walk_of result ≡ start r rx }
{
    let x = EllipseAxis {
        f: r.wrapping_add(r).wrapping_sub(1),
        neg: true,
        delta: 0,
        tmp: rx,
        inc: 255,
    };
    let y = EllipseAxis {
        f: 1,
        neg: false,
        delta: 0,
        tmp: 0,
        inc: 1,
    };
    EllipseWalk {
        x,
        y,
        fxy: 0,
        neg: false,
        started: false,
    }
}

fn apart(m: u8, n: u8) -> u8
    ensures { result ≡ apart m n }
{
    m.abs_diff(n)
}

// f with its sign, raised by 2.
fn raise(f: u8, neg: bool) -> u8
    ensures { result ≡ (if neg then (if nat_lt 2 f then f - 2 else 2 - f) else (f + 2) % 256) }
{
    if neg {
        f.abs_diff(2)
    } else {
        f.wrapping_add(2)
    }
}

#[tactic(auto, unfolding(model::specs::Ellipses::moves))]
fn moves(a: EllipseAxis, r: u8, radius: u8) -> bool
    ensures { result ≡ moves r radius (axis_of a) }
{
    a.delta.wrapping_add(radius).wrapping_sub(r) < 128
}

fn advance(a: EllipseAxis, r: u8, radius: u8, moved: bool) -> EllipseAxis
    requires { moved ≡ moves r radius (axis_of a) }
    ensures { axis_of result ≡ advanced r radius (axis_of a) }
{
    let f = raise(a.f, a.neg);
    let neg = a.neg & (2 < a.f);
    let fed = a.delta.wrapping_add(radius);
    let inc = a.inc;
    if moved {
        return EllipseAxis {
            f,
            neg,
            delta: fed.wrapping_sub(r),
            tmp: a.tmp.wrapping_add(inc),
            inc,
        };
    }
    EllipseAxis {
        f,
        neg,
        delta: fed,
        tmp: a.tmp,
        inc,
    }
}

#[tactic(auto, unfolding(model::specs::Ellipses::turns))]
fn turns(a: EllipseAxis) -> bool
    ensures { result ≡ turns (axis_of a) }
{
    !a.neg & (a.f < 3)
}

#[tactic(auto, using(crate::proofs::Laws::turn_back, crate::proofs::Laws::turn_not))]
fn turn(a: EllipseAxis, t: bool) -> EllipseAxis
    ensures { axis_of result ≡ turned t (axis_of a) }
{
    if t {
        return EllipseAxis {
            f: 2u8.wrapping_sub(a.f),
            neg: a.neg,
            delta: a.delta,
            tmp: a.tmp,
            inc: a.inc.wrapping_neg(),
        };
    }
    a
}

fn choose(t: bool, a: bool, b: bool) -> bool
    ensures { result ≡ (if t then a else b) }
{
    if t { a } else { b }
}

fn negate(m: u8, t: bool) -> u8
    ensures { result ≡ (if t then (256 - m) % 256 else m) }
{
    if t { m.wrapping_neg() } else { m }
}

// A step along x draws no part at the first column.
#[tactic(auto, unfolding(crate::specs::Walk::parts_of))]
fn x_part(moved: bool, a: u8, b: u8, rx: u8) -> EllipsePart
    ensures { parts_of result ≡ (if moved && not ((a + 1) % 256 == rx) then part a b ∷ [] else []) }
{
    if moved & (a.wrapping_add(1) != rx) {
        return EllipsePart::At(a, b);
    }
    EllipsePart::Nothing
}

fn early(started: bool, b: u8) -> bool
    ensures { result ≡ early started b }
{
    !started & ((b == 1) | (b == 2))
}

// The first two lines are drawn as wide as the middle.
#[tactic(auto, unfolding(crate::specs::Walk::parts_of))]
fn y_part(moved: bool, soon: bool, a: u8, b: u8, rx: u8) -> EllipsePart
    ensures { parts_of result ≡ (if moved then part (if soon then rx else a) b ∷ [] else []) }
{
    if moved {
        if soon {
            return EllipsePart::At(rx, b);
        }
        return EllipsePart::At(a, b);
    }
    EllipsePart::Nothing
}

fn x_step(w: EllipseWalk, r: u8, rx: u8) -> EllipseStep
    ensures { Stepped (x_step r rx (walk_of w)) (x_parts r rx (walk_of w)) result }
{
    let old = w.x;
    let y = w.y;
    let moved = moves(old, r, rx);
    let x = advance(old, r, rx, moved);
    let t = turns(x);
    let under = w.fxy < old.f;
    let walk = EllipseWalk {
        x,
        y: turn(y, t),
        fxy: apart(w.fxy, old.f),
        neg: choose(t, !under, under),
        started: w.started,
    };
    EllipseStep {
        walk,
        part: x_part(moved, x.tmp, y.tmp, rx),
    }
}

fn y_step(w: EllipseWalk, r: u8, rx: u8, ry: u8) -> EllipseStep
    ensures { Stepped (y_step r ry (walk_of w)) (y_parts r rx ry (walk_of w)) result }
{
    let x = w.x;
    let old = w.y;
    let moved = moves(old, r, ry);
    let y = advance(old, r, ry, moved);
    let t = turns(y);
    let soon = early(w.started, y.tmp);
    let walk = EllipseWalk {
        x: turn(x, t),
        y,
        fxy: negate(apart(old.f, w.fxy), t),
        neg: old.f < w.fxy,
        started: choose(moved, !soon, w.started),
    };
    EllipseStep {
        walk,
        part: y_part(moved, soon, x.tmp, y.tmp, rx),
    }
}

pub fn next_step(w: EllipseWalk, r: u8, rx: u8, ry: u8) -> EllipseStep
    ensures { Stepped (step r rx ry (walk_of w)) (step_parts r rx ry (walk_of w)) result }
{
    if w.neg {
        return y_step(w, r, rx, ry);
    }
    x_step(w, r, rx)
}

#[tactic(auto, unfolding(model::specs::Ellipses::ended))]
pub fn ended(w: EllipseWalk) -> bool
    ensures { result ≡ ended (walk_of w) }
{
    let x = w.x;
    x.tmp == 0
}
