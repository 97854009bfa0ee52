// What the program prints of an evaluation.
#![tactic(auto)]

ghost use Rattle.std.specs.Prelude.{◌≡◌, ◌++◌, ◌+◌, ◌≤◌, length};
ghost use Rattle.arrayvec.specs.ArrayVec.{array_vec_len};
ghost use Rattle.procedure.specs.Refused.{number_of, named_by};
ghost use Rattle.evaluation.specs.Evaluating.{evaluation_told};
ghost use Rattle.report.specs.Text.{refusal_text, report_of};
ghost use Rattle.report.specs.Given.{FitsAnswer, held};

use arrayvec::ArrayVec;
use paper::Evaluation;
use procedure::Refusal;

// The bytes in which a report is held; no report is longer.
const REPORT: usize = 80;

// The text of a report, without the heap.
pub type Report = ArrayVec<u8, REPORT>;

// The first `len` bytes are the text: a value that can be copied, which a vector cannot.
#[derive(Clone, Copy)]
pub struct Printed {
    pub bytes: [u8; REPORT],
    pub len: usize,
}

// REFUSED and the numbers.
fn put_refusal<const N: usize>(out: &mut ArrayVec<u8, N>, refusal: Refusal)
    requires { array_vec_len out.old + length (refusal_text (number_of refusal) (named_by refusal)) ≤ N }
    ensures { out.new.items ≡ out.old.items ++ refusal_text (number_of refusal) (named_by refusal) }
{
    printing::put_fixed(out, b"REFUSED ");
    let named = refusal.names();
    let numbers = [
        i128::from(refusal.number()),
        i128::from(named.series),
        i128::from(named.set),
        i128::from(named.quantity),
    ];
    match refusal {
        Refusal::Suspect(_) => printing::put_numbers(out, &numbers),
        _ => printing::put_numbers(out, &numbers[..1]),
    }
}

// The text of the report of an evaluation's answer.
fn text(answer: Result<Evaluation, Refusal>) -> Report
    requires { FitsAnswer answer }
    ensures { result.items ≡ report_of (evaluation_told answer) }
{
    let mut out = Report::new();
    match answer {
        Ok(e) => verdicts::put_verdicts(&mut out, e.xy, e.h),
        Err(refusal) => put_refusal(&mut out, refusal),
    }
    out
}

// The report of an evaluation's answer.
pub fn report(answer: Result<Evaluation, Refusal>) -> Printed
    requires { FitsAnswer answer }
    ensures { result ≡ held (report_of (evaluation_told answer)) }
{
    let out = text(answer);
    Printed {
        bytes: rows::padded(out.as_slice()),
        len: out.len(),
    }
}
