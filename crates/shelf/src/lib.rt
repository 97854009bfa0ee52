// A book of a lent register, found by its number.
#![tactic(auto)]

ghost use Rattle.std.specs.Prelude.{◌≡◌};
ghost use Rattle.shelf.specs.Steps.{picked_of, others_form, found_of};

use book::Book;
use image::Layout;
use procedure::Procedure;

// The book of that number, in form or not; a closed one where the bytes have none.
pub fn picked(register: &[u8], book: u64) -> Book
    ensures { result ≡ picked_of register.now book }
{
    let length = register.len();
    if length != Layout::REGISTER {
        return making::closed();
    }
    if lent::is_book(book) {
        let a = ((book - 1) as usize) * Layout::BOOK;
        return stored::load(register, a);
    }
    making::closed()
}

// Whether the register is in form but for the book of that number: the call on it holds it to the form, so that each is looked at once.
fn others_formed(register: &[u8], book: u64) -> bool
    ensures { result ≡ others_form register.now book }
{
    if lent::is_book(book) {
        let k = book as usize;
        return lent::formed_from(register, 0, k - 1)
            & lent::formed_from(register, k, Procedure::BOOKS);
    }
    lent::formed(register)
}

// The book of that number; where another is not in form it is made one that is not, and any call on it is refused with REGISTER.
pub fn found(register: &[u8], book: u64) -> Book
    ensures { result ≡ found_of register.now book }
{
    let mut b = picked(register, book);
    if others_formed(register, book) {
        return b;
    }
    b.opened = 2;
    b
}
