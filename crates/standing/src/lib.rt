// What stands at the places, and what stood there before each kept change, as one test of words: the paper's test of what they mean.
#![tactic(auto)]

ghost use Rattle.std.specs.Prelude.{◌≡◌, ◌&&◌, ◌≤◌, get_or};
ghost use Rattle.paper.specs.Procedure.{KEPT};
ghost use Rattle.paper.specs.Units.{all_near};
ghost use Rattle.paper.specs.Form.{takeable};
ghost use Rattle.image.specs.Lengths.{terms_of};
ghost use Rattle.image.specs.Places.{places_of};
ghost use Rattle.image.specs.Changes.{entries};
ghost use Rattle.standing.specs.Marked.{fits_marked};

use image::Layout;
use procedure::Procedure;

// A change that can be taken back from places with these marks.
fn change_ok(
    t: &[u64; Layout::TERMS],
    marks: &[u64; Procedure::PLACES],
    change: &[u64; Layout::CHANGE],
) -> bool
    ensures { result ≡ fits_marked (terms_of t.now) marks.now (get_or change.now 0 0) (get_or change.now 1 0) (get_or change.now 2 0) (get_or change.now 3 0) }
{
    let [place, x, y, h] = *change;
    if place >= Procedure::PLACES as u64 {
        return false;
    }
    let p = place as usize;
    let empties = places::all_zero(x, y, h);
    if empties {
        return marks[p] != 0;
    }
    ranges::near(t, p, x, y, h)
}

// Every reading is near its point, and the kept changes can be taken back one after another from these places. Of what stands at a place
// taking back asks no more than its mark, so that no place has to be copied.
pub fn all_stand(
    t: &[u64; Layout::TERMS],
    cells: &[u64; Layout::CELLS],
    kept: u64,
    changes: &[u64; Layout::CHANGES],
) -> bool
    requires { kept ≤ KEPT }
    ensures { result ≡ (all_near (terms_of t.now) 0 (places_of cells.now) && takeable (terms_of t.now) (places_of cells.now) (entries kept changes.now)) }
{
    let (all, _) = changes.as_chunks::<{ Layout::CHANGE }>();
    let mut marks = [0u64; Procedure::PLACES];
    let near = places::survey(t, cells, &mut marks);
    for change in &all[..kept as usize] {
        if !change_ok(t, &marks, change) {
            return false;
        }
        let [place, x, y, h] = *change;
        marks[place as usize] = places::mark(places::all_zero(x, y, h));
    }
    near
}
