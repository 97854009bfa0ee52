// The ranges of lengths, as tests of words: the terms, and a reading near its point. Each test is the paper's test of what the words mean.
// Tests are joined by `&`: all of them are made, so that a function has one way out and a short proof.
#![tactic(auto)]

ghost use Rattle.std.specs.Prelude.{◌≡◌, ◌&&◌, ◌≤◌, ◌-ℤ◌};
ghost use Rattle.paper.specs.Procedure.{SPAN};
ghost use Rattle.paper.specs.Units.{from1_to, up_to, on_earth, within, in_range, near, point_of};
ghost use Rattle.image.specs.Lengths.{ORIGIN, len, triple, triple_at, terms_of};

use image::{Layout, ORIGIN, Term};
use procedure::{Procedure, Range};

// A length from 1 to n.
fn from_1_to(n: u64, w: u64) -> bool
    requires { n ≤ ORIGIN }
    ensures { result ≡ from1_to n (len w) }
{
    (w > ORIGIN) & (w <= ORIGIN + n)
}

// Two lengths at most n apart.
fn close(n: u64, a: u64, b: u64) -> bool
    ensures { result ≡ up_to n (len b -ℤ len a) }
{
    a.abs_diff(b) <= n
}

// On each axis at most n from a point.
fn around(n: u64, ax: u64, ay: u64, ah: u64, x: u64, y: u64, h: u64) -> bool
    ensures { result ≡ within n (triple ax ay ah) (triple x y h) }
{
    close(n, ax, x) & close(n, ay, y) & close(n, ah, h)
}

// The approximate values of the two points, and how far these are apart.
fn points_ok(t: &[u64; Layout::TERMS]) -> bool
    ensures { result ≡ (on_earth (triple_at t.now 6) && on_earth (triple_at t.now 9) && within SPAN (triple_at t.now 6) (triple_at t.now 9)) }
{
    let x = t[Term::X1];
    let y = t[Term::Y1];
    let h = t[Term::H1];
    let x2 = t[Term::X2];
    let y2 = t[Term::Y2];
    let h2 = t[Term::H2];
    around(Range::EARTH, ORIGIN, ORIGIN, ORIGIN, x, y, h)
        & around(Range::EARTH, ORIGIN, ORIGIN, ORIGIN, x2, y2, h2)
        & around(Range::SPAN, x, y, h, x2, y2, h2)
}

// Every term in its range.
pub fn in_range(t: &[u64; Layout::TERMS]) -> bool
    ensures { result ≡ in_range (terms_of t.now) }
{
    from_1_to(Range::SPAN, t[Term::DISTANCE])
        & close(Range::SPAN, ORIGIN, t[Term::HEIGHT])
        & from_1_to(Range::SPREAD, t[Term::SCREEN_XY])
        & from_1_to(Range::SPREAD, t[Term::SCREEN_H])
        & from_1_to(Range::SPREAD, t[Term::SIGMA_XY])
        & from_1_to(Range::SPREAD, t[Term::SIGMA_H])
        & points_ok(t)
}

// A reading near its point, for the place with that number.
pub fn near(t: &[u64; Layout::TERMS], place: usize, x: u64, y: u64, h: u64) -> bool
    ensures { result ≡ near (terms_of t.now) (point_of place) (triple x y h) }
{
    let k = Term::X1 + place % Procedure::POINTS * Layout::READING;
    around(Range::NEARBY, t[k], t[k + 1], t[k + 2], x, y, h)
}
