// The calls that ask what stands in a lent register: its form, a reading, a count. Any bytes and any numbers may be handed in.
// Of a number that is no book's a closed book is asked: beside any refusal the rest of an answer is the same.
#![tactic(auto)]

ghost use Rattle.std.specs.Prelude.{◌≡◌};
ghost use Rattle.paper.specs.Calls.{ask, read, changes};
ghost use Rattle.readings.specs.Answers.{lengths_of, count_of};
ghost use Rattle.lent.specs.Calls.{called};
ghost use Rattle.asks.specs.Answers.{checked};

use numbers::Place;
use procedure::Refusal;
use readings::{Count, Lengths};

// The form check apart, which every call on books makes first: 0, or REGISTER.
pub fn rtk_check(register: &[u8]) -> u64
    ensures { result ≡ checked register.now }
{
    if lent::formed(register) {
        return 0;
    }
    Refusal::Register.number()
}

// What stands at a place.
pub fn rtk_read(register: &[u8], book: u64, series: u64, set: u64, point: u64) -> Lengths
    ensures { result ≡ lengths_of (called (ask (read book (record { series = series; set = set; point = point }))) register.now).answer }
{
    let b = shelf::found(register, book);
    let reading = readings::read(&b, Place { series, set, point });
    Lengths::from(shelving::addressed(book, reading))
}

// How many changes can be taken back.
pub fn rtk_changes(register: &[u8], book: u64) -> Count
    ensures { result ≡ count_of (called (ask (changes book)) register.now).answer }
{
    let b = shelf::found(register, book);
    let changes = readings::changes(&b);
    Count::from(shelving::addressed(book, changes))
}
