// The kept changes in a book's words, with one more or one less.
#![tactic(auto)]

ghost use Rattle.std.specs.Prelude.{◌≡◌, ◌+◌, ◌*◌, ◌<◌, get_or};
ghost use Rattle.paper.specs.Procedure.{PLACES};
ghost use Rattle.changes.specs.Kept.{pushed, popped, more};

use image::Layout;
use procedure::Procedure;

// The words of all kept changes but one.
const OTHERS: usize = Layout::CHANGES - Layout::CHANGE;

// The kept changes with one more, of a place and what stands there: the latest first; the oldest falls away.
pub fn keep(
    old: [u64; Layout::CHANGES],
    cells: &[u64; Layout::CELLS],
    place: usize,
) -> [u64; Layout::CHANGES]
    requires { place < PLACES }
    ensures { result ≡ pushed old place (get_or cells.now (place * 3) 0) (get_or cells.now (place * 3 + 1) 0) (get_or cells.now (place * 3 + 2) 0) }
{
    let m = place * Layout::READING;
    let mut out = [0u64; Layout::CHANGES];
    let others = &old[0..OTHERS];
    out[Layout::CHANGE..].copy_from_slice(others);
    out[..Layout::CHANGE].copy_from_slice(&[place as u64, cells[m], cells[m + 1], cells[m + 2]]);
    out
}

// The kept changes without the latest.
pub fn pop(old: [u64; Layout::CHANGES]) -> [u64; Layout::CHANGES]
    ensures { result ≡ popped old }
{
    let mut out = [0u64; Layout::CHANGES];
    out[..OTHERS].copy_from_slice(&old[Layout::CHANGE..]);
    out
}

// One change more kept, up to thirty-two.
pub fn one_more(n: u64) -> u64
    ensures { result ≡ more n }
{
    n.saturating_add(1).min(Procedure::KEPT as u64)
}
