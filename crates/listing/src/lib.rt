// The pass list of a register in form: gathered anew in every call, and written to a lent buffer.
#![tactic(auto)]

ghost use Rattle.std.specs.Prelude.{◌≡◌, true, ◌++◌, ◌*◌, ◌≤◌, ◌<◌, length, take, drop};
ghost use Rattle.arrayvec.specs.ArrayVec.{array_vec_len};
ghost use Rattle.std.proofs.Math.Option.{map};
ghost use Rattle.paper.specs.Procedure.{BOOKS};
ghost use Rattle.paper.specs.Books.{sight, sights};
ghost use Rattle.paper.specs.TurnedAway.{on_list, passing};
ghost use Rattle.book.specs.Meaning.{meant};
ghost use Rattle.stored.specs.Image.{BOOK, book_at};
ghost use Rattle.lent.specs.Image.{meant_from, in_form};

use arrayvec::ArrayVec;
use image::{Layout, Open};
use procedure::Procedure;

// Whether the book with that number, counted from 0, is on the list.
fn on_list(register: &[u8], k: usize) -> bool
    requires { (in_form register.now ≡ true) × (k < BOOKS) }
    ensures { result ≡ on_list (map sight (meant (book_at register.now (k * BOOK)))) }
{
    let b = stored::load(register, k * Layout::BOOK);
    // by themselves: a reference into the whole book would have all of it copied
    let terms = b.terms;
    let cells = b.cells;
    if b.opened == 0 {
        return false;
    }
    evaluation::passes(Open {
        terms: &terms,
        cells: &cells,
    })
}

// The numbers of the books on the list, rising, and how many they are: a value that can be copied, which a vector cannot.
#[derive(Clone, Copy)]
pub struct Roll {
    pub numbers: [u8; Procedure::BOOKS],
    pub count: usize,
}

// The numbers on the list, from the books as they are now.
fn gathered(register: &[u8]) -> ArrayVec<u8, { Procedure::BOOKS }>
    requires { in_form register.now ≡ true }
    ensures { (result.items ≡ passing (sights (meant_from BOOKS register.now))) × (array_vec_len result ≤ BOOKS) }
{
    let mut roll = ArrayVec::new();
    for k in 0..Procedure::BOOKS {
        if on_list(register, k) {
            roll.push((k + 1) as u8);
        }
    }
    roll
}

// The list, from the books as they are now.
pub fn listed(register: &[u8]) -> Roll
    requires { in_form register.now ≡ true }
    ensures { (take result.count result.numbers ≡ passing (sights (meant_from BOOKS register.now))) × (result.count ≤ BOOKS) }
{
    let roll = gathered(register);
    Roll {
        numbers: rows::padded(roll.as_slice()),
        count: roll.len(),
    }
}

// The bytes of from at the start of a buffer; those behind them stay.
pub fn write(from: &[u8], list: &mut [u8])
    requires { length from.now ≤ length list.old }
    ensures { list.new ≡ from.now ++ drop (length from.now) list.old }
{
    list[..from.len()].copy_from_slice(from);
}
