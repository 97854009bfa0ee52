// The lent bytes of a register, their form, and the numbers of its books.
#![tactic(auto)]

ghost use Rattle.std.specs.Prelude.{◌≡◌, ◌≤◌};
ghost use Rattle.paper.specs.Procedure.{BOOKS};
ghost use Rattle.paper.specs.Units.{one_to};
ghost use Rattle.lent.specs.Image.{in_form, form_between};

use image::Layout;
use procedure::Procedure;

// Whether the length is right and the books from one to another are in form, counted from 0, the last not among them.
pub fn formed_from(register: &[u8], from: usize, to: usize) -> bool
    requires { (from ≤ to) × (to ≤ BOOKS) }
    ensures { result ≡ form_between from to register.now }
{
    register.len() == Layout::REGISTER
        && (from..to).all(|k| stored::in_form(register, k * Layout::BOOK))
}

// Whether bytes are a register in form: the whole check.
pub fn formed(register: &[u8]) -> bool
    ensures { result ≡ in_form register.now }
{
    formed_from(register, 0, Procedure::BOOKS)
}

// Whether a number is that of a book.
pub fn is_book(book: u64) -> bool
    ensures { result ≡ one_to BOOKS book }
{
    procedure::one_to(Procedure::BOOKS as u64, book)
}
