// The form of a book's words as a whole. Each test is the paper's test of what the words mean.
#![tactic(auto)]

ghost use Rattle.std.specs.Prelude.{◌≡◌};
ghost use Rattle.image.specs.Changes.{zeros};
ghost use Rattle.form.specs.Whole.{bare, sound, words_form};

use image::Layout;
use procedure::Procedure;

// Words that are not used. All are looked at, without a branch: so the compiler takes many at once.
fn all_zero(words: &[u64]) -> bool
    ensures { result ≡ zeros words.now }
{
    words.iter().fold(true, |zero, word| zero & (*word == 0))
}

// The words of a closed book.
fn bare(
    terms: &[u64; Layout::TERMS],
    cells: &[u64; Layout::CELLS],
    kept: u64,
    changes: &[u64; Layout::CHANGES],
) -> bool
    ensures { result ≡ bare terms.now cells.now kept changes.now }
{
    (kept == 0) & (all_zero(terms) & (all_zero(cells) & all_zero(changes)))
}

// The words of an open book in form.
fn sound(
    terms: &[u64; Layout::TERMS],
    cells: &[u64; Layout::CELLS],
    kept: u64,
    changes: &[u64; Layout::CHANGES],
) -> bool
    ensures { result ≡ sound terms.now cells.now kept changes.now }
{
    if kept > Procedure::KEPT as u64 {
        return false;
    }
    all_zero(&changes[kept as usize * Layout::CHANGE..])
        & (ranges::in_range(terms) & standing::all_stand(terms, cells, kept, changes))
}

// Whether a book's words are in form.
pub fn in_form<'a>(
    opened: u64,
    terms: &'a [u64; Layout::TERMS],
    cells: &'a [u64; Layout::CELLS],
    kept: u64,
    changes: &'a [u64; Layout::CHANGES],
) -> bool
    ensures { result ≡ words_form opened terms.now cells.now kept changes.now }
{
    if opened == 0 {
        return bare(terms, cells, kept, changes);
    }
    if opened == 1 {
        return sound(terms, cells, kept, changes);
    }
    false
}
