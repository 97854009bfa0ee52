// Evaluation and the pass list's test of an open book, from its words.
#![tactic(auto)]

ghost use Rattle.std.specs.Prelude.{◌≡◌, IfOk};
ghost use Rattle.std.proofs.Math.Option.{some};
ghost use Rattle.paper.specs.TurnedAway.{on_list};
ghost use Rattle.image.specs.Sights.{sight_of};
ghost use Rattle.figures.specs.Judging.{AllHeld};
ghost use Rattle.evaluation.specs.Evaluating.{answer_to, evaluation_told};

use image::Open;
use paper::Evaluation;
use procedure::Refusal;

// The evaluation of a book, in whole numbers: SHORT, SUSPECT or the figures.
pub fn judged(book: Open<'_>) -> Result<Evaluation, Refusal>
    ensures answer { evaluation_told result ≡ answer_to (sight_of book.entry.terms.now book.entry.cells.now) }
    ensures held { IfOk result AllHeld }
{
    let full = places::full(book).ok_or(Refusal::Short)?;
    if let Some(suspect) = screen::first_suspect(full) {
        return Err(Refusal::Suspect(suspect));
    }
    Ok(figures::evaluate(full))
}

// Whether a book is on the pass list: it evaluates, and both are within.
pub fn passes(book: Open<'_>) -> bool
    ensures { result ≡ on_list (some (sight_of book.entry.terms.now book.entry.cells.now)) }
{
    let Some(full) = places::full(book) else {
        return false;
    };
    match screen::first_suspect(full) {
        None => figures::both_within(full),
        Some(_) => false,
    }
}
