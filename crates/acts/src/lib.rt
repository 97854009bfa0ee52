// The calls that change the readings of a book of a lent register. Any bytes and any numbers may be handed in.
#![tactic(auto)]

ghost use Rattle.paper.specs.Calls.{on, enter, correct, withdraw, take_back};
ghost use Rattle.lent.specs.Calls.{Calls};

use numbers::{Place, Reading};

// Enter a reading at an empty place.
pub fn rtk_enter(
    register: &mut [u8],
    book: u64,
    series: u64,
    set: u64,
    point: u64,
    x: i64,
    y: i64,
    h: i64,
) -> u64
    ensures { Calls (on book (enter (record { series = series; set = set; point = point }) (record { x = x; y = y; h = h }))) register.old result register.new }
{
    let b = shelf::found(register, book);
    let at = Place { series, set, point };
    let entered = b.enter(at, Reading { x, y, h });
    shelving::put_back(register, book, entered)
}

// Correct the reading at a filled place.
pub fn rtk_correct(
    register: &mut [u8],
    book: u64,
    series: u64,
    set: u64,
    point: u64,
    x: i64,
    y: i64,
    h: i64,
) -> u64
    ensures { Calls (on book (correct (record { series = series; set = set; point = point }) (record { x = x; y = y; h = h }))) register.old result register.new }
{
    let b = shelf::found(register, book);
    let at = Place { series, set, point };
    let corrected = b.correct(at, Reading { x, y, h });
    shelving::put_back(register, book, corrected)
}

// Withdraw the reading at a filled place.
pub fn rtk_withdraw(register: &mut [u8], book: u64, series: u64, set: u64, point: u64) -> u64
    ensures { Calls (on book (withdraw (record { series = series; set = set; point = point }))) register.old result register.new }
{
    let b = shelf::found(register, book);
    let withdrawn = b.withdraw(Place { series, set, point });
    shelving::put_back(register, book, withdrawn)
}

// Take a book's latest change back.
pub fn rtk_take_back(register: &mut [u8], book: u64) -> u64
    ensures { Calls (on book take_back) register.old result register.new }
{
    let b = shelf::found(register, book);
    let undone = b.take_back();
    shelving::put_back(register, book, undone)
}
