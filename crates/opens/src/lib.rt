// The calls that open a book of a lent register and strike one. Any bytes and any numbers may be handed in.
#![tactic(auto)]

ghost use Rattle.paper.specs.Calls.{on, begin, strike};
ghost use Rattle.paper.specs.Units.{terms_given};
ghost use Rattle.lent.specs.Calls.{Calls};

// Open a closed book with terms.
pub fn rtk_open(
    register: &mut [u8],
    book: u64,
    d: i64,
    h: i64,
    sxy: i64,
    sh: i64,
    gxy: i64,
    gh: i64,
    x1: i64,
    y1: i64,
    h1: i64,
    x2: i64,
    y2: i64,
    h2: i64,
) -> u64
    ensures { Calls (on book (begin (terms_given d h sxy sh gxy gh x1 y1 h1 x2 y2 h2))) register.old result register.new }
{
    let b = shelf::found(register, book);
    let terms = [d, h, sxy, sh, gxy, gh, x1, y1, h1, x2, y2, h2];
    let opened = opening::begin(b, terms);
    shelving::put_back(register, book, opened)
}

// Strike a book.
pub fn rtk_strike(register: &mut [u8], book: u64) -> u64
    ensures { Calls (on book strike) register.old result register.new }
{
    let b = shelf::found(register, book);
    let struck = opening::strike(b);
    shelving::put_back(register, book, struck)
}
