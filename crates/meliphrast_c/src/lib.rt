// The exported calls, as C and Rust link them. Each is the call of that name of the crate that proves it, and states its clauses again.
// Any bytes and any numbers may be handed in.
#![tactic(auto)]

ghost use Rattle.std.specs.Prelude.{◌≡◌, length};
ghost use Rattle.paper.specs.Calls.{pass_list, fresh, take_back, ask, strike, enter, on, withdraw, correct, read, changes, residual, begin, evaluate, compare};
ghost use Rattle.readings.specs.Answers.{count_of, lengths_of};
ghost use Rattle.lent.specs.Image.{LENGTH};
ghost use Rattle.lent.specs.Calls.{called, Calls};
ghost use Rattle.register.specs.Answers.{list_after};
ghost use Rattle.paper.specs.Units.{terms_given};
ghost use Rattle.asks.specs.Answers.{checked};
ghost use Rattle.doubles.specs.Doubles.{evaluation_of};
ghost use Rattle.judges.specs.Answers.{comparison_of};
ghost use Rattle.paper.specs.Alone.{evaluated_file};
ghost use Rattle.fieldfile.specs.Reader.{read_of};

use doubles::Evaluation;
use judges::Comparison;
use readings::{Count, Lengths};

// The length that a register has, in bytes.
#[unsafe(no_mangle)]
pub extern "C" fn rtk_length() -> u64
    ensures { result ≡ LENGTH }
{
    register::rtk_length()
}

// Make a fresh register over any bytes of the right length: every book is closed.
#[unsafe(no_mangle)]
pub extern "C" fn rtk_fresh(register: &mut [u8]) -> u64
    ensures { Calls fresh register.old result register.new }
{
    register::rtk_fresh(register)
}

// Write the numbers of the books on the pass list, rising, from the buffer's start; the bytes behind them stay.
#[unsafe(no_mangle)]
pub extern "C" fn rtk_pass_list(register: &[u8], list: &mut [u8]) -> Count
    ensures { (result ≡ count_of (called (ask (pass_list (length list.old))) register.now).answer) × (list.new ≡ list_after (called (ask (pass_list (length list.old))) register.now).answer list.old) }
{
    register::rtk_pass_list(register, list)
}

// Open a closed book with terms.
#[unsafe(no_mangle)]
pub extern "C" fn rtk_open(
    register: &mut [u8],
    book: u64,
    d: i64,
    h: i64,
    sxy: i64,
    sh: i64,
    gxy: i64,
    gh: i64,
    x1: i64,
    y1: i64,
    h1: i64,
    x2: i64,
    y2: i64,
    h2: i64,
) -> u64
    ensures { Calls (on book (begin (terms_given d h sxy sh gxy gh x1 y1 h1 x2 y2 h2))) register.old result register.new }
{
    opens::rtk_open(
        register, book, d, h, sxy, sh, gxy, gh, x1, y1, h1, x2, y2, h2,
    )
}

// Strike a book.
#[unsafe(no_mangle)]
pub extern "C" fn rtk_strike(register: &mut [u8], book: u64) -> u64
    ensures { Calls (on book strike) register.old result register.new }
{
    opens::rtk_strike(register, book)
}

// Enter a reading at an empty place.
#[unsafe(no_mangle)]
pub extern "C" fn rtk_enter(
    register: &mut [u8],
    book: u64,
    series: u64,
    set: u64,
    point: u64,
    x: i64,
    y: i64,
    h: i64,
) -> u64
    ensures { Calls (on book (enter (record { series = series; set = set; point = point }) (record { x = x; y = y; h = h }))) register.old result register.new }
{
    acts::rtk_enter(register, book, series, set, point, x, y, h)
}

// Correct the reading at a filled place.
#[unsafe(no_mangle)]
pub extern "C" fn rtk_correct(
    register: &mut [u8],
    book: u64,
    series: u64,
    set: u64,
    point: u64,
    x: i64,
    y: i64,
    h: i64,
) -> u64
    ensures { Calls (on book (correct (record { series = series; set = set; point = point }) (record { x = x; y = y; h = h }))) register.old result register.new }
{
    acts::rtk_correct(register, book, series, set, point, x, y, h)
}

// Withdraw the reading at a filled place.
#[unsafe(no_mangle)]
pub extern "C" fn rtk_withdraw(
    register: &mut [u8],
    book: u64,
    series: u64,
    set: u64,
    point: u64,
) -> u64
    ensures { Calls (on book (withdraw (record { series = series; set = set; point = point }))) register.old result register.new }
{
    acts::rtk_withdraw(register, book, series, set, point)
}

// Take a book's latest change back.
#[unsafe(no_mangle)]
pub extern "C" fn rtk_take_back(register: &mut [u8], book: u64) -> u64
    ensures { Calls (on book take_back) register.old result register.new }
{
    acts::rtk_take_back(register, book)
}

// The form check apart, which every call on books makes first: 0, or REGISTER.
#[unsafe(no_mangle)]
pub extern "C" fn rtk_check(register: &[u8]) -> u64
    ensures { result ≡ checked register.now }
{
    asks::rtk_check(register)
}

// What stands at a place.
#[unsafe(no_mangle)]
pub extern "C" fn rtk_read(register: &[u8], book: u64, series: u64, set: u64, point: u64) -> Lengths
    ensures { result ≡ lengths_of (called (ask (read book (record { series = series; set = set; point = point }))) register.now).answer }
{
    asks::rtk_read(register, book, series, set, point)
}

// How many changes can be taken back.
#[unsafe(no_mangle)]
pub extern "C" fn rtk_changes(register: &[u8], book: u64) -> Count
    ensures { result ≡ count_of (called (ask (changes book)) register.now).answer }
{
    asks::rtk_changes(register, book)
}

// The residual of the reading at a place: 15·r for x, y, h.
#[unsafe(no_mangle)]
pub extern "C" fn rtk_residual(
    register: &[u8],
    book: u64,
    series: u64,
    set: u64,
    point: u64,
) -> Lengths
    ensures { result ≡ lengths_of (called (ask (residual book (record { series = series; set = set; point = point }))) register.now).answer }
{
    judges::rtk_residual(register, book, series, set, point)
}

// Evaluate a book.
#[unsafe(no_mangle)]
pub extern "C" fn rtk_evaluate(register: &[u8], book: u64) -> Evaluation
    ensures { result ≡ evaluation_of (called (ask (evaluate book)) register.now).answer }
{
    judges::rtk_evaluate(register, book)
}

// Compare two books along an axis: 1 xy, 2 h. The first is named first.
#[unsafe(no_mangle)]
pub extern "C" fn rtk_compare(register: &[u8], first: u64, second: u64, axis: u64) -> Comparison
    ensures { result ≡ comparison_of (called (ask (compare first second axis)) register.now).answer }
{
    judges::rtk_compare(register, first, second, axis)
}

// Evaluate the book of a field file.
#[unsafe(no_mangle)]
pub extern "C" fn rtk_evaluate_file(file: &[u8]) -> Evaluation
    ensures { result ≡ evaluation_of (evaluated_file (read_of file.now)) }
{
    files::rtk_evaluate_file(file)
}
