// A book opened with terms, and one struck. Any Book at all may be handed in.
#![tactic(auto)]

ghost use Rattle.std.specs.Prelude.{◌≡◌};
ghost use Rattle.paper.specs.Calls.{begin, strike};
ghost use Rattle.paper.specs.Units.{terms_from};
ghost use Rattle.image.specs.Lengths.{terms_of};
ghost use Rattle.book.specs.Steps.{step_of, stepped};

use book::{Book, Step};
use image::Layout;
use procedure::Refusal;

// A closed book opened with terms, in words, or what refuses that.
fn begun(b: &Book, terms: [u64; Layout::TERMS]) -> Result<Book, Refusal>
    ensures { stepped b.now result ≡ step_of (begin (terms_of terms)) b.now }
{
    if !book::in_form(b) {
        return Err(Refusal::Register);
    }
    if b.opened != 0 {
        return Err(Refusal::Open);
    }
    if !ranges::in_range(&terms) {
        return Err(Refusal::Terms);
    }
    Ok(making::filled(terms, [0u64; Layout::CELLS]))
}

// Open a closed book with terms, in the order of the field file.
pub fn begin(b: Book, terms: [i64; Layout::TERMS]) -> Step
    ensures { result ≡ step_of (begin (terms_from terms)) b }
{
    b.step(begun(&b, numbers::terms_of(terms)))
}

// A book struck, or what refuses that.
fn struck(b: Book) -> Result<Book, Refusal>
    ensures { stepped b result ≡ step_of strike b }
{
    b.met()?;
    Ok(making::closed())
}

// Strike a book: it is closed, and nothing in it is left.
pub fn strike(b: Book) -> Step
    ensures { result ≡ step_of strike b }
{
    b.step(struck(b))
}
