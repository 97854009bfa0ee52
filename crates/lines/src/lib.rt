// Fixed strings and lines of numbers of an ASCII text, read at the front of a slice.
#![tactic(auto)]

ghost use Rattle.std.specs.Prelude.{◌≡◌, map, option_copied};
ghost use Rattle.image.specs.Lengths.{word};
ghost use Rattle.decimals.specs.Numbers.{sep_of};
ghost use Rattle.decimals.specs.Reader.{fixed, field, numbers};
ghost use Rattle.decimals.specs.Given.{read_view, read_as, rest_of};

// What follows the bytes w.
#[tactic(auto, using(crate::proofs::Steps::fixed_prefix))]
pub fn fixed<'a>(s: &'a [u8], w: &[u8]) -> Option<&'a [u8]>
    ensures { option_copied result ≡ rest_of (fixed w.now s.now) }
{
    s.strip_prefix(w)
}

// A number, as its word, and the byte that ends it.
#[tactic(auto, using(decimals::proofs::Steps::reading), unfolding(decimals::specs::Reader::field, decimals::specs::Reader::then))]
pub fn field(s: &[u8], sep: u8) -> Option<(u64, &[u8])>
    ensures { read_view result ≡ read_as word (field sep s.now) }
{
    let (word, rest) = digits::number(s)?;
    let rest = fixed(rest, &[sep])?;
    Some((word, rest))
}

// LF after the last number of a line, a space where n more are to come.
#[tactic(auto, unfolding(decimals::specs::Numbers::sep_of))]
pub fn sep_of(n: usize) -> u8
    ensures { result ≡ sep_of n }
{
    if n == 0 { b'\n' } else { b' ' }
}

// A line of N numbers, as their words.
pub fn numbers<const N: usize>(s: &[u8]) -> Option<([u64; N], &[u8])>
    ensures { read_view result ≡ read_as (map word) (numbers N s.now) }
{
    let mut words = [0; N];
    let mut rest = s;
    for (k, word) in words.iter_mut().enumerate() {
        let (number, after) = field(rest, sep_of(N - k - 1))?;
        *word = number;
        rest = after;
    }
    Some((words, rest))
}
