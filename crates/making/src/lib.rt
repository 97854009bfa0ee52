// A `Book` made anew: a closed one, or an open one with terms and readings.
#![tactic(auto)]

ghost use Rattle.std.specs.Prelude.{◌≡◌};
ghost use Rattle.std.proofs.Math.Option.{none};
ghost use Rattle.book.specs.Meaning.{book_of};
ghost use Rattle.making.specs.Filled.{filled_of};

use book::Book;
use image::Layout;

// A book with nothing in it.
#[tactic(auto, unfolding(book::specs::Meaning::book_of))]
pub fn closed() -> Book
    ensures { result ≡ book_of none }
{
    let terms = [0u64; Layout::TERMS];
    let cells = [0u64; Layout::CELLS];
    let changes = [0u64; Layout::CHANGES];
    Book {
        opened: 0,
        terms,
        cells,
        kept: 0,
        changes,
    }
}

// An open book with these terms and readings, and nothing to take back.
#[tactic(auto, unfolding(crate::specs::Filled::filled_of))]
pub fn filled(terms: [u64; Layout::TERMS], cells: [u64; Layout::CELLS]) -> Book
    ensures { result ≡ filled_of terms cells }
{
    let changes = [0u64; Layout::CHANGES];
    Book {
        opened: 1,
        terms,
        cells,
        kept: 0,
        changes,
    }
}
