// The call on a field file. Any bytes may be handed in; no register is touched.
#![tactic(auto)]

ghost use Rattle.std.specs.Prelude.{◌≡◌};
ghost use Rattle.paper.specs.Alone.{evaluated_file};
ghost use Rattle.fieldfile.specs.Reader.{read_of};
ghost use Rattle.doubles.specs.Doubles.{evaluation_of};

use doubles::Evaluation;

// Evaluate the book of a field file.
pub fn rtk_evaluate_file(file: &[u8]) -> Evaluation
    ensures { result ≡ evaluation_of (evaluated_file (read_of file.now)) }
{
    Evaluation::from(filequestions::evaluate_file(file))
}
