// The screening of a full book, from its words.
#![tactic(auto)]

ghost use Rattle.std.specs.Prelude.{◌≡◌};
ghost use Rattle.paper.specs.Screening.{first_suspect};
ghost use Rattle.image.specs.Lengths.{terms_of};
ghost use Rattle.image.specs.Places.{places_of};
ghost use Rattle.screen.specs.Named.{found_of};

use image::{Full, Term};
use procedure::{Procedure, Quantity, Suspect};

// The first suspect set in the order of the field sheet, distance before height in a set. Document 01 names the form: nested loops,
// left by a label.
pub fn first_suspect(book: Full<'_>) -> Option<Suspect>
    ensures { found_of result ≡ first_suspect (terms_of book.entry.terms.now) (places_of book.entry.cells.now) }
{
    let most = limits::most_passing(book.terms[Term::SCREEN_XY]);
    let mut found = None;
    'search: for series in 1..=Procedure::SERIES {
        for set in 1..=Procedure::SETS {
            if sets::distance_suspect(book, series, set, most) {
                found = Some(Suspect {
                    series: series as u64,
                    set: set as u64,
                    quantity: Quantity::Distance,
                });
                break 'search;
            }
            if sets::height_suspect(book, series, set) {
                found = Some(Suspect {
                    series: series as u64,
                    set: set as u64,
                    quantity: Quantity::Height,
                });
                break 'search;
            }
        }
    }
    found
}
