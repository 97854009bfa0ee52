// A book in a row of lent bytes: its words loaded, and stored.
#![tactic(auto)]

ghost use Rattle.std.specs.Prelude.{◌≡◌, ◌∷◌, ◌+◌, ◌*◌, ◌≤◌, length};
ghost use Rattle.words.specs.Words.{bytes_of};
ghost use Rattle.rows.specs.Paste.{pasted};
ghost use Rattle.book.specs.Meaning.{book_form};
ghost use Rattle.stored.specs.Image.{BOOK, words_of, book_at};

use book::Book;
use image::Layout;

// The book whose bytes start at a.
pub fn load(register: &[u8], a: usize) -> Book
    requires { a + BOOK ≤ length register.now }
    ensures { result ≡ book_at register.now a }
{
    let mut terms = [0u64; Layout::TERMS];
    let mut cells = [0u64; Layout::CELLS];
    let mut changes = [0u64; Layout::CHANGES];
    let opened = words::word_at(register, a);
    words::load_at(register, a + Layout::TERMS_AT, &mut terms);
    words::load_at(register, a + Layout::CELLS_AT, &mut cells);
    let kept = words::word_at(register, a + Layout::KEPT_AT);
    words::load_at(register, a + Layout::CHANGES_AT, &mut changes);
    Book {
        opened,
        terms,
        cells,
        kept,
        changes,
    }
}

// Whether the book whose bytes start at a is in form.
pub fn in_form(register: &[u8], a: usize) -> bool
    requires { a + BOOK ≤ length register.now }
    ensures { result ≡ book_form (book_at register.now a) }
{
    book::in_form(&load(register, a))
}

// The bytes of w and of each word of from, in the place of those from the byte at on.
fn store_both(w: u64, from: &[u64], bytes: &mut [u8], at: usize)
    requires { at + 8 + 8 * length from.now ≤ length bytes.old }
    ensures { bytes.new ≡ pasted bytes.old at (bytes_of (w ∷ from.now)) }
{
    words::paste_word(bytes, at, w);
    words::store_at(from, bytes, at + 8);
}

// The bytes of b, in the place of those from a on.
pub fn store(register: &mut [u8], a: usize, b: Book)
    requires { a + BOOK ≤ length register.old }
    ensures { register.new ≡ pasted register.old a (bytes_of (words_of b)) }
{
    store_both(b.opened, &b.terms, register, a);
    words::store_at(&b.cells, register, a + Layout::CELLS_AT);
    store_both(b.kept, &b.changes, register, a + Layout::KEPT_AT);
}
