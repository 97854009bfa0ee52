// A set of a full book, from its words: whether its distance or its height is suspect.
#![tactic(auto)]

ghost use Rattle.std.specs.Prelude.{◌≡◌, ◌+◌, ◌≤◌, ◌<◌};
ghost use Rattle.paper.specs.Procedure.{SERIES, SETS};
ghost use Rattle.paper.specs.Screening.{suspicious};
ghost use Rattle.image.specs.Layout.{CELL_WORDS};
ghost use Rattle.image.specs.Lengths.{terms_of};
ghost use Rattle.image.specs.Places.{places_of};
ghost use Rattle.limits.specs.Most.{most_passing};
ghost use Rattle.sets.specs.Words.{words_from, Close, q_of, distance, height};

use image::{Full, Layout, ORIGIN, Term};
use procedure::Procedure;

// Where the words of a set start: x, y, h of point 1, then of point 2.
fn words_from(series: usize, set: usize) -> usize
    requires { (1 ≤ series) × (series ≤ SERIES) × (1 ≤ set) × (set ≤ SETS) }
    ensures { result ≡ words_from series set }
{
    ((series - 1) * Procedure::SETS + (set - 1)) * Procedure::POINTS * Layout::READING
}

// q of the set whose words start at m.
fn q_from(cells: &[u64; Layout::CELLS], m: usize) -> u64
    requires { (m + 5 < CELL_WORDS) × Close cells.now m 0 × Close cells.now m 1 }
    ensures { result ≡ q_of cells.now m }
{
    let dx = limits::apart(cells[m + 3], cells[m]);
    let dy = limits::apart(cells[m + 4], cells[m + 1]);
    dx * dx + dy * dy
}

// Whether the distance of a set is suspect: further from D* than the greatest difference that passes.
pub fn distance_suspect(book: Full<'_>, series: usize, set: usize, most: u64) -> bool
    requires { (1 ≤ series) × (series ≤ SERIES) × (1 ≤ set) × (set ≤ SETS) × (most ≡ most_passing (terms_of book.terms.now).screen_xy) }
    ensures { result ≡ suspicious (terms_of book.entry.terms.now) (places_of book.entry.cells.now) (distance series set) }
{
    let m = words_from(series, set);
    let q = q_from(book.cells, m);
    limits::further(q, book.terms[Term::DISTANCE] - ORIGIN, most)
}

// Whether the height of a set is suspect.
pub fn height_suspect(book: Full<'_>, series: usize, set: usize) -> bool
    requires { (1 ≤ series) × (series ≤ SERIES) × (1 ≤ set) × (set ≤ SETS) }
    ensures { result ≡ suspicious (terms_of book.entry.terms.now) (places_of book.entry.cells.now) (height series set) }
{
    let m = words_from(series, set);
    let rise = book.cells[m + 5] + ORIGIN - book.cells[m + 2];
    let d = limits::apart(rise, book.terms[Term::HEIGHT]);
    limits::beyond(book.terms[Term::SCREEN_H], d)
}
