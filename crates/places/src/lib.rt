// The thirty places of a sheet, as tests of words: empty or not, and every reading near its point. Each test is the paper's test of what
// the words mean.
#![tactic(auto)]

ghost use Rattle.std.specs.Prelude.{◌≡◌, ◌*◌, ◌<◌, length, eqb};
ghost use Rattle.paper.specs.Procedure.{PLACES};
ghost use Rattle.paper.specs.Units.{near_at, all_near, is_empty};
ghost use Rattle.paper.specs.TurnedAway.{some?};
ghost use Rattle.image.specs.Lengths.{terms_of};
ghost use Rattle.image.specs.Places.{all_zero, spot_at, places_of};
ghost use Rattle.places.specs.Marks.{Marks};

use image::Layout;
use procedure::Procedure;

mod filled;

pub use filled::full;

// Three words that hold no reading.
pub fn all_zero(x: u64, y: u64, h: u64) -> bool
    ensures { result ≡ all_zero x y h }
{
    (x == 0) & ((y == 0) & (h == 0))
}

// The mark of a place: 0 for an empty one, 1 for others.
pub fn mark(empty: bool) -> u64
    ensures { eqb result 0 ≡ empty }
{
    u64::from(!empty)
}

// The place is empty.
pub fn empty_at(cells: &[u64; Layout::CELLS], place: usize) -> bool
    requires { place < PLACES }
    ensures { result ≡ is_empty (spot_at cells.now (place * 3)) }
{
    let m = place * Layout::READING;
    all_zero(cells[m], cells[m + 1], cells[m + 2])
}

// The mark of what stands at a place.
fn mark_at(cells: &[u64; Layout::CELLS], place: usize) -> u64
    requires { place < PLACES }
    ensures { eqb result 0 ≡ is_empty (spot_at cells.now (place * 3)) }
{
    mark(empty_at(cells, place))
}

// Nothing at the place, or a reading near its point.
fn near_at(t: &[u64; Layout::TERMS], cells: &[u64; Layout::CELLS], place: usize) -> bool
    requires { place < PLACES }
    ensures { result ≡ near_at (terms_of t.now) place (spot_at cells.now (place * 3)) }
{
    let m = place * Layout::READING;
    empty_at(cells, place) | ranges::near(t, place, cells[m], cells[m + 1], cells[m + 2])
}

// Every reading near its point, and of each place its mark. A turn takes both points of a set, so that the compiler knows which of them it
// has at hand.
pub fn survey(t: &[u64; Layout::TERMS], cells: &[u64; Layout::CELLS], marks: &mut [u64]) -> bool
    requires { length marks.old ≡ PLACES }
    ensures { (result ≡ all_near (terms_of t.now) 0 (places_of cells.now)) × Marks marks.new (places_of cells.now) }
{
    let mut near = true;
    for set in 0..Procedure::ROUNDS {
        let p = set * Procedure::POINTS;
        marks[p] = mark_at(cells, p);
        marks[p + 1] = mark_at(cells, p + 1);
        near = near & near_at(t, cells, p) & near_at(t, cells, p + 1);
    }
    near
}

// Every reading near its point.
pub fn all_near(t: &[u64; Layout::TERMS], cells: &[u64; Layout::CELLS]) -> bool
    ensures { result ≡ all_near (terms_of t.now) 0 (places_of cells.now) }
{
    let mut marks = [0u64; Procedure::PLACES];
    survey(t, cells, &mut marks)
}

// A place is empty.
pub fn any_empty(cells: &[u64; Layout::CELLS]) -> bool
    ensures { result ≡ some? is_empty (places_of cells.now) }
{
    (0..Procedure::PLACES).any(|p| empty_at(cells, p))
}
