// The bodies of the three series of a field file, read.
#![tactic(auto)]

ghost use Rattle.std.specs.Prelude.{◌≡◌, map, slice_index};
ghost use Rattle.image.specs.Places.{spot_words, cells_of};
ghost use Rattle.decimals.specs.Given.{read_view, read_as};
ghost use Rattle.fieldfile.specs.Reader.{series, bodies};

use image::Layout;
use procedure::Procedure;

// A body of so many lines, as the words of its places.
fn series(s: &[u8], count: u64) -> Option<([[u64; Layout::READING]; Procedure::IN_SERIES], &[u8])>
    ensures { read_view result ≡ read_as (map spot_words) (series count s.now) }
{
    let mut places = [[0; Layout::READING]; Procedure::IN_SERIES];
    let mut rest = s;
    let mut left = count;
    for (k, place) in places.iter_mut().enumerate() {
        let ((words, lines), after) = spots::spot(rest, k, left)?;
        *place = words;
        left = lines;
        rest = after;
    }
    (left == 0).then_some((places, rest))
}

// The bodies of the three series, with so many lines each, as the cells of their places.
#[tactic(auto, using(decimals::proofs::Steps::reading), unfolding(fieldfile::specs::Reader::bodies, decimals::specs::Reader::then))]
pub fn bodies(s: &[u8], lines: [u64; Procedure::SERIES]) -> Option<([u64; Layout::CELLS], &[u8])>
    ensures { read_view result ≡ read_as cells_of (bodies (slice_index lines 0) (slice_index lines 1) (slice_index lines 2) s.now) }
{
    let [a, b, c] = lines;
    let (first, rest) = series(s, a)?;
    let (second, rest) = series(rest, b)?;
    let (third, rest) = series(rest, c)?;
    let mut cells = [0; Layout::CELLS];
    cells.copy_from_slice([first, second, third].as_flattened().as_flattened());
    Some((cells, rest))
}
