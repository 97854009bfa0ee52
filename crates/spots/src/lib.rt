// A place of a series of a field file, read.
#![tactic(auto)]

ghost use Rattle.std.specs.Prelude.{◌≡◌, ◌<◌, option_copied};
ghost use Rattle.paper.specs.Procedure.{IN_SERIES};
ghost use Rattle.decimals.specs.Reader.{fixed};
ghost use Rattle.decimals.specs.Given.{read_view, read_as, rest_of};
ghost use Rattle.fieldfile.specs.Reader.{tag, spot};
ghost use Rattle.spots.specs.Given.{placed_words};

use image::Layout;
use procedure::Procedure;

// The digit 1.
const ONE: usize = b'1' as usize;

// The words of a place with no reading.
const ABSENT: [u64; Layout::READING] = [0; Layout::READING];

// What follows the set and the point of place k of a series.
fn tag(s: &[u8], k: usize) -> Option<&[u8]>
    requires { k < IN_SERIES }
    ensures { option_copied result ≡ rest_of (fixed (tag k) s.now) }
{
    let t = [
        (ONE + k / Procedure::POINTS) as u8,
        b' ',
        (ONE + k % Procedure::POINTS) as u8,
        b' ',
    ];
    lines::fixed(s, &t)
}

// Place k of a series, where so many lines are left: its words, and how many lines are left then.
#[tactic(auto, using(crate::proofs::Steps::placing), unfolding(fieldfile::specs::Reader::spot, fieldfile::specs::Reader::placed, decimals::specs::Reader::then))]
pub fn spot(s: &[u8], k: usize, left: u64) -> Option<(([u64; Layout::READING], u64), &[u8])>
    requires { k < IN_SERIES }
    ensures { read_view result ≡ read_as placed_words (spot k left s.now) }
{
    if left == 0 {
        return Some(((ABSENT, 0), s));
    }
    let Some(rest) = tag(s, k) else {
        return Some(((ABSENT, left), s));
    };
    let (words, rest) = lines::numbers(rest)?;
    Some(((words, left - 1), rest))
}
