// The book that a field file yields. Any bytes may be handed in; no register is touched.
#![tactic(auto)]

ghost use Rattle.std.specs.Prelude.{◌≡◌};
ghost use Rattle.std.proofs.Math.Option.{none};
ghost use Rattle.fieldfile.specs.Reader.{read_of};
ghost use Rattle.book.specs.Meaning.{book_of};
ghost use Rattle.book.specs.Steps.{stepped};
ghost use Rattle.filebook.specs.FileBook.{book_read};

use book::{Book, Step};
use procedure::Refusal;

// The book of a file, or what refuses it: FORM, TERMS, FAR in that order.
pub fn yielded(file: &[u8]) -> Result<Book, Refusal>
    ensures { stepped (book_of none) result ≡ book_read (read_of file.now) }
{
    let Some(contents) = contents::read(file) else {
        return Err(Refusal::Form);
    };
    if !ranges::in_range(&contents.terms) {
        return Err(Refusal::Terms);
    }
    if !places::all_near(&contents.terms, &contents.cells) {
        return Err(Refusal::Far);
    }
    Ok(making::filled(contents.terms, contents.cells))
}

// The same as a step; beside a refusal the file's book is closed and empty.
pub fn read_book(file: &[u8]) -> Step
    ensures { result ≡ book_read (read_of file.now) }
{
    making::closed().step(yielded(file))
}
