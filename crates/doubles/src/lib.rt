// Sheet, verdicts and marks as doubles, in millimetres.
#![tactic(auto)]

ghost use Rattle.std.specs.Prelude.{◌≡◌};
ghost use Rattle.paper.specs.Figures.{doubles};
ghost use Rattle.paper.specs.Verdicts.{verdict, mark_of};
ghost use Rattle.figures.specs.Judging.{SheetHeld, VerdictHeld, AllHeld};
ghost use Rattle.doubles.specs.Doubles.{doubled, plain_by, plain_of};

use paper::{Judged, Mark, Sheet, Shown, Verdict};
use procedure::{Named, Refusal};

// The candidate's sheet, in millimetres.
pub fn sheet_of(f: Shown) -> Sheet
    requires { SheetHeld f }
    ensures { result ≡ doubles f }
{
    let x = roots::millimetres(f.sx);
    let y = roots::millimetres(f.sy);
    let xy = roots::millimetres(f.sxy);
    let h = roots::millimetres(f.sh);
    Sheet {
        s_x: x,
        s_y: y,
        s_xy: xy,
        s_h: h,
    }
}

// A verdict, with both figures in millimetres.
pub fn verdict(j: Judged) -> Verdict
    requires { VerdictHeld j }
    ensures { result ≡ verdict j }
{
    let deviation = roots::millimetres(j.m);
    let bound = roots::millimetres(j.b);
    if j.within {
        return Verdict::Within(deviation, bound);
    }
    Verdict::Beyond(deviation, bound)
}

// A verdict at the boundary.
fn mark_of(v: Verdict) -> Mark
    ensures { result ≡ mark_of v }
{
    match v {
        Verdict::Within(deviation, bound) => Mark {
            within: 1,
            deviation,
            bound,
        },
        Verdict::Beyond(deviation, bound) => Mark {
            within: 0,
            deviation,
            bound,
        },
    }
}

// What an evaluation gives, in millimetres.
#[derive(Clone, Copy)]
pub struct Evaluated {
    pub sheet: Sheet,
    pub xy: Verdict,
    pub h: Verdict,
}

// What an evaluation gives in whole numbers, with its figures in millimetres.
pub fn in_millimetres(e: paper::Evaluation) -> Evaluated
    requires { AllHeld e }
    ensures { result ≡ doubled e }
{
    Evaluated {
        sheet: sheet_of(e.sheet),
        xy: verdict(e.xy),
        h: verdict(e.h),
    }
}

// ---- the boundary

// The figures of one book in millimetres, and a verdict for xy and for h.
#[repr(C)]
#[derive(Clone, Copy)]
pub struct Evaluation {
    pub refusal: u64,
    pub series: u64,
    pub set: u64,
    pub quantity: u64,
    pub sheet: Sheet,
    pub xy: Mark,
    pub h: Mark,
}

const BEYOND: Judged = Judged {
    within: false,
    m: 0,
    b: 0,
};

// Beside a refusal figures are 0 and verdicts beyond.
const NO_FIGURES: paper::Evaluation = paper::Evaluation {
    sheet: Shown {
        sx: 0,
        sy: 0,
        sxy: 0,
        sh: 0,
    },
    xy: BEYOND,
    h: BEYOND,
};

// The record of a refusal number, what it names, and figures.
fn plain(refusal: u64, named: Named, e: Evaluated) -> Evaluation
    ensures { result ≡ plain_by refusal named e }
{
    Evaluation {
        refusal,
        series: named.series,
        set: named.set,
        quantity: named.quantity,
        sheet: e.sheet,
        xy: mark_of(e.xy),
        h: mark_of(e.h),
    }
}

impl From<Result<Evaluated, Refusal>> for Evaluation {
    ghost from_gives = { λ answer plain. plain ≡ plain_of answer };

    fn from(answer: Result<Evaluated, Refusal>) -> Evaluation {
        match answer {
            Ok(e) => plain(0, Named::NONE, e),
            Err(refusal) => plain(
                refusal.number(),
                refusal.names(),
                in_millimetres(NO_FIGURES),
            ),
        }
    }
}
