// One place in a book's words: three words put there, or put back.
#![tactic(auto)]

ghost use Rattle.std.specs.Prelude.{◌≡◌, [], ◌∷◌, ◌*◌, ◌<◌, get_or};
ghost use Rattle.paper.specs.Procedure.{PLACES};
ghost use Rattle.rows.specs.Paste.{pasted};

use image::Layout;

// The places with three words at one of them.
pub fn put(old: [u64; Layout::CELLS], place: usize, x: u64, y: u64, h: u64) -> [u64; Layout::CELLS]
    requires { place < PLACES }
    ensures { result ≡ pasted old (place * 3) (x ∷ y ∷ h ∷ []) }
{
    let mut out = old;
    let m = place * Layout::READING;
    out[m..m + Layout::READING].copy_from_slice(&[x, y, h]);
    out
}

// The places with the latest kept change taken back.
pub fn take_back(
    cells: [u64; Layout::CELLS],
    changes: &[u64; Layout::CHANGES],
) -> [u64; Layout::CELLS]
    requires { get_or changes.now 0 0 < PLACES }
    ensures { result ≡ pasted cells (get_or changes.now 0 0 * 3) (get_or changes.now 1 0 ∷ get_or changes.now 2 0 ∷ get_or changes.now 3 0 ∷ []) }
{
    put(
        cells,
        changes[0] as usize,
        changes[1],
        changes[2],
        changes[3],
    )
}
