// What a field file holds, if it is of the form: its terms and readings.
#![tactic(auto)]

ghost use Rattle.std.specs.Prelude.{◌≡◌};
ghost use Rattle.fieldfile.specs.Reader.{read_of};
ghost use Rattle.contents.specs.Given.{contents_of};

use image::Layout;

// The most bytes of a file.
pub const LONGEST: usize = 4096;

// The words of a file's terms and readings.
#[derive(Clone, Copy)]
pub struct Contents {
    pub terms: [u64; Layout::TERMS],
    pub cells: [u64; Layout::CELLS],
}

// What a file holds, whatever its bytes; nothing if it is not of the form.
#[tactic(auto, using(decimals::proofs::Steps::reading), unfolding(fieldfile::specs::Reader::read_of, fieldfile::specs::Reader::whole, fieldfile::specs::Reader::ends, decimals::specs::Reader::then, crate::specs::Given::contents_of))]
pub fn read(file: &[u8]) -> Option<Contents>
    ensures { result ≡ contents_of (read_of file.now) }
{
    if LONGEST < file.len() {
        return None;
    }
    let (counts, rest) = table::table(file)?;
    let (terms, rest) = lines::numbers(rest)?;
    let (cells, rest) = bodies::bodies(rest, counts)?;
    rest.is_empty().then_some(Contents { terms, cells })
}
