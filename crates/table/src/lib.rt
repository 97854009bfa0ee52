// The table of contents of a field file, read.
#![tactic(auto)]

ghost use Rattle.std.specs.Prelude.{◌≡◌};
ghost use Rattle.decimals.specs.Given.{read_view, read_as};
ghost use Rattle.fieldfile.specs.Reader.{count, table};
ghost use Rattle.table.specs.Given.{three_counts};

use image::ORIGIN;
use procedure::Procedure;

// The word of the most lines of a body.
const MOST: u64 = ORIGIN + Procedure::IN_SERIES as u64;

// The fixed strings of a file.
const CONTENTS: [u8; 11] = *b"CONTENTS 4\n";

const TERMS: [u8; 8] = *b"TERMS 1\n";

const SERIES1: [u8; 8] = *b"SERIES1 ";

const SERIES2: [u8; 8] = *b"SERIES2 ";

const SERIES3: [u8; 8] = *b"SERIES3 ";

// A line of the table of contents: the name of a body, and how many lines it has.
#[tactic(auto, using(crate::proofs::Steps::counting), unfolding(fieldfile::specs::Reader::count, decimals::specs::Reader::then))]
fn count<'a>(s: &'a [u8], name: &[u8]) -> Option<(u64, &'a [u8])>
    ensures { read_view result ≡ read_as (λ n. n) (count name.now s.now) }
{
    let rest = lines::fixed(s, name)?;
    let (word, rest) = lines::field(rest, b'\n')?;
    if !(ORIGIN..=MOST).contains(&word) {
        return None;
    }
    Some((word - ORIGIN, rest))
}

// The table of contents: how many lines the body of each series has.
#[tactic(auto, using(decimals::proofs::Steps::reading), unfolding(fieldfile::specs::Reader::table, decimals::specs::Reader::then, decimals::specs::Ascii::ascii))]
pub fn table(s: &[u8]) -> Option<([u64; Procedure::SERIES], &[u8])>
    ensures { read_view result ≡ read_as three_counts (table s.now) }
{
    let rest = lines::fixed(s, &CONTENTS)?;
    let rest = lines::fixed(rest, &TERMS)?;
    let (a, rest) = count(rest, &SERIES1)?;
    let (b, rest) = count(rest, &SERIES2)?;
    let (c, rest) = count(rest, &SERIES3)?;
    Some(([a, b, c], rest))
}
