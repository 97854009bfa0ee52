// The step from an open book to a full one.

ghost use Rattle.std.specs.Prelude.{◌≡◌, true, false, MatchOption};
ghost use Rattle.paper.specs.Units.{is_empty};
ghost use Rattle.paper.specs.TurnedAway.{some?};
ghost use Rattle.image.specs.Places.{places_of};

use crate::any_empty;
use image::{Full, Open};

// The same book as a full one, where no place is empty.
pub fn full<'a>(book: Open<'a>) -> Option<Full<'a>>
    ensures { MatchOption result (some? is_empty (places_of book.entry.cells.now) ≡ true) (λ f. (some? is_empty (places_of f.cells.now) ≡ false) × (f.terms.now ≡ book.entry.terms.now) × (f.cells.now ≡ book.entry.cells.now)) }
{
    if any_empty(book.cells) {
        return None;
    }
    Some(Full {
        terms: book.terms,
        cells: book.cells,
    })
}
