// The numbers of the procedure and of the ranges as constants of the code, the table of refusals, and the test of a number that counts
// from 1.
#![tactic(auto)]

ghost use Rattle.std.specs.Prelude.{◌≡◌};
ghost use Rattle.paper.specs.Units.{one_to};
ghost use Rattle.procedure.specs.Constants.{numbers};

mod refusal;

pub use refusal::{Named, Quantity, Refusal, Suspect};

#[derive(Clone, Copy)]
pub struct Procedure;

impl Procedure {
    pub const SERIES: usize = 3;

    pub const SETS: usize = 5;

    pub const POINTS: usize = 2;

    pub const ROUNDS: usize = Self::SERIES * Self::SETS;

    pub const IN_SERIES: usize = Self::SETS * Self::POINTS;

    pub const PLACES: usize = Self::ROUNDS * Self::POINTS;

    pub const DEGREES_H: usize = Self::POINTS * (Self::ROUNDS - 1);

    pub const DEGREES_XY: usize = 2 * Self::DEGREES_H;

    pub const BOOKS: usize = 16;

    pub const KEPT: usize = 32;
}

// The ranges of lengths.
#[derive(Clone, Copy)]
pub struct Range;

impl Range {
    // Between the two points.
    pub const SPAN: u64 = 500000;

    // A screening or a stated deviation.
    pub const SPREAD: u64 = 10000;

    // The approximate values of a point.
    pub const EARTH: u64 = 100000000000;

    // From a reading to its point's approximate value.
    pub const NEARBY: u64 = 100000;
}

#[derive(Clone, Copy)]
pub struct Numbers {
    pub series: usize,
    pub sets: usize,
    pub points: usize,
    pub rounds: usize,
    pub in_series: usize,
    pub places: usize,
    pub degrees_h: usize,
    pub degrees_xy: usize,
    pub books: usize,
    pub kept: usize,
    pub span: u64,
    pub spread: u64,
    pub earth: u64,
    pub nearby: u64,
}

// The constants of `Procedure` and `Range` are the paper's.
pub fn constants() -> Numbers
    ensures { result ≡ numbers }
{
    Numbers {
        series: Procedure::SERIES,
        sets: Procedure::SETS,
        points: Procedure::POINTS,
        rounds: Procedure::ROUNDS,
        in_series: Procedure::IN_SERIES,
        places: Procedure::PLACES,
        degrees_h: Procedure::DEGREES_H,
        degrees_xy: Procedure::DEGREES_XY,
        books: Procedure::BOOKS,
        kept: Procedure::KEPT,
        span: Range::SPAN,
        spread: Range::SPREAD,
        earth: Range::EARTH,
        nearby: Range::NEARBY,
    }
}

// Whether k is one of 1 to n.
pub fn one_to(n: u64, k: u64) -> bool
    ensures { result ≡ one_to n k }
{
    (1 <= k) & (k <= n)
}
