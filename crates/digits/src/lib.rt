// A number of an ASCII text, read at the front of a slice.
#![tactic(auto)]

ghost use Rattle.std.specs.Prelude.{◌≡◌, ◌<◌, IfSome};
ghost use Rattle.image.specs.Lengths.{word};
ghost use Rattle.decimals.specs.Numbers.{THIRTEEN_DIGITS};
ghost use Rattle.decimals.specs.Reader.{got, run, nonzero, number};
ghost use Rattle.decimals.specs.Given.{read_view, read_as};

use image::ORIGIN;

// The least number of twelve digits.
const TWELVE_DIGITS: u64 = 100000000000;

// The digits at the front, up to twelve, and what follows them.
#[tactic(auto, using(decimals::proofs::Steps::reading), unfolding(decimals::specs::Reader::run, decimals::specs::Reader::stops))]
fn digits(s: &[u8]) -> (u64, &[u8])
    ensures value { run 0 s.now ≡ got result.0 result.1.now }
    ensures short { result.0 < THIRTEEN_DIGITS }
{
    let mut value = 0;
    let mut rest = s;
    while let [digit @ b'0'..=b'9', after @ ..] = rest
        && value < TWELVE_DIGITS
    {
        value = value * 10 + u64::from(*digit - b'0');
        rest = after;
    }
    (value, rest)
}

// Digits of which the first is not 0.
#[tactic(auto, using(decimals::proofs::Steps::reading), unfolding(decimals::specs::Reader::nonzero))]
fn nonzero(s: &[u8]) -> Option<(u64, &[u8])>
    ensures value { read_view result ≡ read_as (λ n. n) (nonzero s.now) }
    ensures short { IfSome result (λ p. p.0 < THIRTEEN_DIGITS) }
{
    match s {
        [b'1'..=b'9', ..] => Some(digits(s)),
        _ => None,
    }
}

// A number: 0, or digits that start with 1 to 9, with a '-' before them or none.
#[tactic(auto, using(decimals::proofs::Steps::reading), unfolding(decimals::specs::Reader::number, decimals::specs::Reader::then))]
pub fn number(s: &[u8]) -> Option<(u64, &[u8])>
    ensures { read_view result ≡ read_as word (number s.now) }
{
    match s {
        [b'0', rest @ ..] => Some((ORIGIN, rest)),
        [b'-', rest @ ..] => {
            let (value, rest) = nonzero(rest)?;
            Some((ORIGIN - value, rest))
        }
        _ => {
            let (value, rest) = nonzero(s)?;
            Some((ORIGIN + value, rest))
        }
    }
}
