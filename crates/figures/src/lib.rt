// The figures of a full book, and the verdicts on them, in whole numbers, from its sums.
#![tactic(auto)]

ghost use Rattle.std.specs.Prelude.{◌≡◌, ◌≤◌, ◌<◌};
ghost use Rattle.paper.specs.Figures.{shown};
ghost use Rattle.paper.specs.Verdicts.{judged_xy, judged_h, evaluation, both_within};
ghost use Rattle.image.specs.Lengths.{ORIGIN, len, terms_of};
ghost use Rattle.image.specs.Places.{places_of};
ghost use Rattle.image.specs.Ready.{IsSpread};
ghost use Rattle.sums.specs.Sums.{Modest, AllModest};
ghost use Rattle.figures.specs.Judging.{shown_by, within_by, judged_by, Held, SheetHeld, VerdictHeld, AllHeld};

use image::{Full, ORIGIN, Term};
use paper::{Evaluation, Judged, Shown};
use procedure::Procedure;
use sums::Totals;

// 42,000: s² is Q by 15 times the degrees of freedom, and 100 units² are 1 mm².
const FIGURE: u64 = 100 * Procedure::ROUNDS as u64 * Procedure::DEGREES_H as u64;

// How a sum is held to its stated sigma, and what is shown of the bound.
#[derive(Clone, Copy)]
struct Test {
    // Within when times · sum <= most · sigma².
    times: u64,
    most: u64,
    // The bound's square is sigma² times chi², in hundredths, by the degrees of freedom.
    divisor: u64,
    chi: u64,
    ghost small: { (times ≤ 40) × (most ≤ 22341) × (0 < divisor) × (chi ≤ 7447) },
}

impl Test {
    // 40·P <= 22,341·sigma_xy². 560,000; chi² for 56 degrees.
    const XY: Test = Test {
        times: 40,
        most: 22341,
        divisor: 10000 * Procedure::DEGREES_XY as u64,
        chi: 7447,
    };

    // 10·Qh <= 6,201·sigma_h². 280,000; chi² for 28 degrees.
    const H: Test = Test {
        times: 10,
        most: 6201,
        divisor: 10000 * Procedure::DEGREES_H as u64,
        chi: 4134,
    };
}

// 1,024²: a figure is shown in 1,024ths of a millimetre.
const SHOWN: u64 = 1024 * 1024;

// What is shown of a sum: the greatest m with m² · 42,000 <= 1,048,576 · sum.
fn figure(sum: u64) -> u64
    requires { Modest sum }
    ensures { (result ≡ shown sum) × Held result }
{
    roots::greatest(FIGURE, SHOWN * sum)
}

// The figures of the four sums.
fn shown_of(s: Totals) -> Shown
    requires { AllModest s }
    ensures { (result ≡ shown_by s) × SheetHeld result }
{
    let x = figure(s.qx);
    let y = figure(s.qy);
    let xy = figure(s.p);
    let h = figure(s.qh);
    Shown {
        sx: x,
        sy: y,
        sxy: xy,
        sh: h,
    }
}

// Whether a sum is within its test. Sigma is a word.
fn within_by(test: Test, sum: u64, sigma: u64) -> bool
    requires { Modest sum × IsSpread sigma }
    ensures { result ≡ within_by test.times test.most sum (len sigma) }
{
    let s = sigma - ORIGIN;
    let tested = test.times * sum;
    let limit = test.most * (s * s);
    tested <= limit
}

// The verdict on a sum of which m is shown: within by that test; b is the greatest with b² · divisor <= sigma² · chi · 1,048,576.
fn judged_by(test: Test, sum: u64, m: u64, sigma: u64) -> Judged
    requires { Modest sum × (m ≡ shown sum) × Held m × IsSpread sigma }
    ensures { (result ≡ judged_by test.times test.most test.divisor test.chi sum (len sigma)) × VerdictHeld result }
{
    let within = within_by(test, sum, sigma);
    let s = sigma - ORIGIN;
    let b = roots::greatest(test.divisor, s * s * test.chi * SHOWN);
    Judged { within, m, b }
}

// The evaluation of a full book.
pub fn evaluate(book: Full<'_>) -> Evaluation
    ensures { (result ≡ evaluation (terms_of book.entry.terms.now) (places_of book.entry.cells.now)) × AllHeld result }
{
    let s = sums::sums(book);
    let sheet = shown_of(s);
    let xy = judged_by(Test::XY, s.p, sheet.sxy, book.terms[Term::SIGMA_XY]);
    let h = judged_by(Test::H, s.qh, sheet.sh, book.terms[Term::SIGMA_H]);
    Evaluation { sheet, xy, h }
}

// Whether both are within, by the sums alone: no figure and no bound is worked out.
pub fn both_within(book: Full<'_>) -> bool
    ensures { result ≡ both_within (judged_xy (terms_of book.entry.terms.now) (places_of book.entry.cells.now)) (judged_h (terms_of book.entry.terms.now) (places_of book.entry.cells.now)) }
{
    let s = sums::sums(book);
    within_by(Test::XY, s.p, book.terms[Term::SIGMA_XY])
        & within_by(Test::H, s.qh, book.terms[Term::SIGMA_H])
}
