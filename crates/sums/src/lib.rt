// The sums and the residuals of a full book, in whole numbers, from its words.
#![tactic(auto)]

ghost use Rattle.std.specs.Prelude.{◌≡◌, ◌*◌, ◌≤◌, ◌<◌};
ghost use Rattle.paper.specs.Procedure.{POINTS, ROUNDS, PLACES, NEARBY};
ghost use Rattle.paper.specs.Units.{place_at};
ghost use Rattle.paper.specs.Figures.{Q, both, residual15};
ghost use Rattle.image.specs.Lengths.{terms_of};
ghost use Rattle.image.specs.Places.{places_of, axis_of};
ghost use Rattle.sums.specs.Coordinates.{index_of};
ghost use Rattle.sums.specs.Sums.{RAISED, raised_of, Adds, totals_of, AllModest};

use image::{Full, Layout, Term};
use procedure::{Procedure, Range};

mod coordinate;

pub use coordinate::Coordinate;

// The words of a set: x, y, h of each point.
const SET: usize = Procedure::POINTS * Layout::READING;

// The offset of reading i of a point along an axis, raised by NEARBY so that it is not negative.
fn raised(book: Full<'_>, point: usize, axis: Coordinate, i: usize) -> u64
    requires { (1 ≤ point) × (point ≤ POINTS) × (i < ROUNDS) }
    ensures { (result ≡ raised_of book.entry.terms.now book.entry.cells.now point (index_of axis) i) × (result ≤ 2 * NEARBY) }
{
    let from = (point - 1) * Layout::READING + axis.index();
    book.cells[i * SET + from] + Range::NEARBY - book.terms[Term::X1 + from]
}

// The sum of raised offsets, and the sum of their squares.
#[derive(Clone, Copy)]
struct Added {
    s: u64,
    q: u64,
}

// Both sums of the 15 raised offsets of a point and an axis.
fn added_up(book: Full<'_>, point: usize, axis: Coordinate) -> Added
    requires { (1 ≤ point) × (point ≤ POINTS) }
    ensures { Adds book.entry.terms.now book.entry.cells.now point (index_of axis) result }
{
    let mut s: u64 = 0;
    let mut q: u64 = 0;
    for i in 0..Procedure::ROUNDS {
        let u = raised(book, point, axis, i);
        s += u;
        q += u * u;
    }
    Added { s, q }
}

// Q of a point and an axis.
fn q_of(book: Full<'_>, point: usize, axis: Coordinate) -> u64
    requires { (1 ≤ point) × (point ≤ POINTS) }
    ensures { (result ≡ Q (terms_of book.entry.terms.now) (places_of book.entry.cells.now) (axis_of (index_of axis)) point) × (4 * result ≤ RAISED * RAISED) }
{
    let sums = added_up(book, point, axis);
    Procedure::ROUNDS as u64 * sums.q - sums.s * sums.s
}

// 15·r of the reading at a place, counted from 0 in sheet order, along an axis.
pub fn residual(book: Full<'_>, place: usize, axis: Coordinate) -> i64
    requires { place < PLACES }
    ensures { result ≡ residual15 (terms_of book.entry.terms.now) (places_of book.entry.cells.now) (place_at place) (axis_of (index_of axis)) }
{
    let point = place % Procedure::POINTS + 1;
    let sums = added_up(book, point, axis);
    let u = raised(book, point, axis, place / Procedure::POINTS);
    (sums.s as i64) - ((Procedure::ROUNDS as u64 * u) as i64)
}

// The sum of Q over both points.
fn both(book: Full<'_>, axis: Coordinate) -> u64
    ensures { (result ≡ both (terms_of book.entry.terms.now) (places_of book.entry.cells.now) (axis_of (index_of axis))) × (result ≤ 4500000000000) }
{
    let first = q_of(book, 1, axis);
    let second = q_of(book, 2, axis);
    first + second
}

// Qx, Qy, P and Qh.
#[derive(Clone, Copy)]
pub struct Totals {
    pub qx: u64,
    pub qy: u64,
    pub p: u64,
    pub qh: u64,
}

// The four sums of a book.
pub fn sums(book: Full<'_>) -> Totals
    ensures { (result ≡ totals_of (terms_of book.entry.terms.now) (places_of book.entry.cells.now)) × AllModest result }
{
    let x = both(book, Coordinate::X);
    let y = both(book, Coordinate::Y);
    let h = both(book, Coordinate::H);
    let xy = x + y;
    Totals {
        qx: x,
        qy: y,
        p: xy,
        qh: h,
    }
}
