// What is asked of a book by itself: residual and evaluation. Any Book at all may be handed in.
#![tactic(auto)]

ghost use Rattle.std.specs.Prelude.{◌≡◌, ◌<◌, IfOk};
ghost use Rattle.std.proofs.Math.Option.{some};
ghost use Rattle.paper.specs.Procedure.{PLACES};
ghost use Rattle.paper.specs.Units.{zeros, place_at};
ghost use Rattle.paper.specs.Calls.{residual, evaluate};
ghost use Rattle.paper.specs.Answers.{lengths, residual_at};
ghost use Rattle.paper.specs.Alone.{asked_alone};
ghost use Rattle.image.specs.Sights.{sight_of};
ghost use Rattle.procedure.specs.Refused.{told};
ghost use Rattle.numbers.specs.Named.{place_named};
ghost use Rattle.book.specs.Meaning.{seen};
ghost use Rattle.readings.specs.Answers.{reading_in};
ghost use Rattle.figures.specs.Judging.{AllHeld};
ghost use Rattle.evaluation.specs.Evaluating.{evaluation_told};
ghost use Rattle.doubles.specs.Doubles.{Evaluates};

use book::Book;
use doubles::Evaluated;
use image::{Full, Open};
use numbers::Place;
use paper::Evaluation;
use procedure::Refusal;
use readings::Reading;
use sums::Coordinate;

// 15·r along x, y and h at a place of a full book, counted from 0 in sheet order.
fn residuals(book: Full<'_>, place: usize) -> Reading
    requires { place < PLACES }
    ensures { reading_in result ≡ lengths (residual_at (place_at place) (some (sight_of book.entry.terms.now book.entry.cells.now))) }
{
    Reading {
        x: sums::residual(book, place, Coordinate::X),
        y: sums::residual(book, place, Coordinate::Y),
        h: sums::residual(book, place, Coordinate::H),
    }
}

// The residual of the reading at a place: 15·r for x, y, h.
pub fn residual(b: &Book, at: Place) -> Result<Reading, Refusal>
    ensures { told reading_in (lengths zeros) result ≡ asked_alone (λ k. residual k (place_named at)) (seen b.now) }
{
    let place = b.aim(at)?;
    let open = Open {
        terms: &b.terms,
        cells: &b.cells,
    };
    let full = places::full(open).ok_or(Refusal::Short)?;
    Ok(residuals(full, place))
}

// The evaluation of a book, in whole numbers.
pub fn judge(b: &Book) -> Result<Evaluation, Refusal>
    ensures answer { evaluation_told result ≡ asked_alone evaluate (seen b.now) }
    ensures held { IfOk result AllHeld }
{
    b.met()?;
    evaluation::judged(Open {
        terms: &b.terms,
        cells: &b.cells,
    })
}

// The evaluation of a book, in millimetres.
pub fn evaluate(b: &Book) -> Result<Evaluated, Refusal>
    ensures { Evaluates result (asked_alone evaluate (seen b.now)) }
{
    Ok(doubles::in_millimetres(judge(b)?))
}
