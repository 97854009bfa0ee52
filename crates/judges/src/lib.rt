// The calls that ask what the readings of a book of a lent register come to: residual, evaluation, comparison of two. Any bytes and any
// numbers may be handed in.
// Of a number that is no book's a closed book is asked: beside any refusal the rest of an answer is the same.
#![tactic(auto)]

ghost use Rattle.std.specs.Prelude.{◌≡◌};
ghost use Rattle.paper.specs.Calls.{ask, residual, evaluate, compare};
ghost use Rattle.readings.specs.Answers.{lengths_of};
ghost use Rattle.comparison.specs.Comparing.{comparison_told};
ghost use Rattle.doubles.specs.Doubles.{evaluation_of};
ghost use Rattle.lent.specs.Calls.{called};
ghost use Rattle.judges.specs.Answers.{comparison_by, comparison_of};

use doubles::Evaluation;
use numbers::Place;
use procedure::{Named, Refusal};
use readings::Lengths;

// The residual of the reading at a place: 15·r for x, y, h.
pub fn rtk_residual(register: &[u8], book: u64, series: u64, set: u64, point: u64) -> Lengths
    ensures { result ≡ lengths_of (called (ask (residual book (record { series = series; set = set; point = point }))) register.now).answer }
{
    let b = shelf::found(register, book);
    let residual = questions::residual(&b, Place { series, set, point });
    Lengths::from(shelving::addressed(book, residual))
}

// Evaluate a book.
pub fn rtk_evaluate(register: &[u8], book: u64) -> Evaluation
    ensures { result ≡ evaluation_of (called (ask (evaluate book)) register.now).answer }
{
    let b = shelf::found(register, book);
    let evaluated = questions::evaluate(&b);
    Evaluation::from(shelving::addressed(book, evaluated))
}

// ---- comparison

// Whether two receivers are of the same population.
#[repr(C)]
#[derive(Clone, Copy)]
pub struct Comparison {
    pub refusal: u64,
    pub series: u64,
    pub set: u64,
    pub quantity: u64,
    pub same: u64,
}

// The record of a refusal number, what it names, and whether they are the same: 1 yes, 0 no.
fn plain(refusal: u64, named: Named, same: bool) -> Comparison
    ensures { result ≡ comparison_by refusal named same }
{
    Comparison {
        refusal,
        series: named.series,
        set: named.set,
        quantity: named.quantity,
        same: u64::from(same),
    }
}

// Beside a refusal a comparison says not the same.
impl From<Result<bool, Refusal>> for Comparison {
    ghost from_gives = { λ r c. c ≡ comparison_of (comparison_told r) };

    fn from(answer: Result<bool, Refusal>) -> Comparison {
        match answer {
            Ok(same) => plain(0, Named::NONE, same),
            Err(refusal) => plain(refusal.number(), refusal.names(), false),
        }
    }
}

// Compare two books along an axis: 1 xy, 2 h. The first is named first.
pub fn rtk_compare(register: &[u8], first: u64, second: u64, axis: u64) -> Comparison
    ensures { result ≡ comparison_of (called (ask (compare first second axis)) register.now).answer }
{
    let a = shelf::found(register, first);
    let b = shelf::picked(register, second);
    let compared = shelving::addressed(first, pairs::compare(&a, &b, axis));
    Comparison::from(shelving::addressed(second, compared))
}
