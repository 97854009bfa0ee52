// The evaluation of the book that a field file yields, and its report. Any bytes may be handed in; no register is touched.
#![tactic(auto)]

ghost use Rattle.std.specs.Prelude.{◌≡◌, IfOk};
ghost use Rattle.paper.specs.Alone.{evaluated_file};
ghost use Rattle.figures.specs.Judging.{AllHeld};
ghost use Rattle.evaluation.specs.Evaluating.{evaluation_told};
ghost use Rattle.doubles.specs.Doubles.{Evaluates};
ghost use Rattle.fieldfile.specs.Reader.{read_of};
ghost use Rattle.report.specs.Text.{report_of};
ghost use Rattle.report.specs.Given.{held};

use doubles::Evaluated;
use paper::Evaluation;
use procedure::Refusal;
use report::Printed;

// The evaluation of a file's book, in whole numbers: after the file's own refusals SHORT, SUSPECT.
fn judge_file(file: &[u8]) -> Result<Evaluation, Refusal>
    ensures answer { evaluation_told result ≡ evaluated_file (read_of file.now) }
    ensures held { IfOk result AllHeld }
{
    match filebook::yielded(file) {
        Ok(book) => questions::judge(&book),
        Err(refusal) => Err(refusal),
    }
}

// The same in millimetres.
pub fn evaluate_file(file: &[u8]) -> Result<Evaluated, Refusal>
    ensures { Evaluates result (evaluated_file (read_of file.now)) }
{
    Ok(doubles::in_millimetres(judge_file(file)?))
}

// What the program prints of a file.
pub fn report_file(file: &[u8]) -> Printed
    ensures { result ≡ held (report_of (evaluated_file (read_of file.now))) }
{
    report::report(judge_file(file))
}
