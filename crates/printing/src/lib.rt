// Fixed strings and lines of numbers, appended to a text as ASCII.
#![tactic(auto)]

ghost use Rattle.std.specs.Prelude.{◌≡◌, cond, [], ◌∷◌, ◌++◌, ◌+◌, ◌≤◌, length};
ghost use Rattle.arrayvec.specs.ArrayVec.{array_vec_len};
ghost use Rattle.decimals.specs.Numbers.{numeral, line};

use arrayvec::ArrayVec;
use itoa::Buffer;

// The bytes w. There is room for them.
pub fn put_fixed<const N: usize>(out: &mut ArrayVec<u8, N>, w: &[u8])
    requires { array_vec_len out.old + length w.now ≤ N }
    ensures { out.new.items ≡ out.old.items ++ w.now }
{
    out.try_extend_from_slice(w).unwrap();
}

// One fixed string or another.
pub fn put_either<const N: usize>(out: &mut ArrayVec<u8, N>, first: bool, a: &[u8], b: &[u8])
    requires { array_vec_len out.old + length (cond first a.now b.now) ≤ N }
    ensures { out.new.items ≡ out.old.items ++ cond first a.now b.now }
{
    if first {
        return put_fixed(out, a);
    }
    put_fixed(out, b);
}

// A number, and the byte that ends it.
fn put_field<const N: usize>(out: &mut ArrayVec<u8, N>, number: i128, sep: u8)
    requires { array_vec_len out.old + length (numeral number ++ sep ∷ []) ≤ N }
    ensures { out.new.items ≡ out.old.items ++ numeral number ++ sep ∷ [] }
{
    put_fixed(out, Buffer::new().format(number).as_bytes());
    out.push(sep);
}

// A line of numbers. An i128 holds each u64, and the numbers below 0.
pub fn put_numbers<const N: usize>(out: &mut ArrayVec<u8, N>, numbers: &[i128])
    requires { array_vec_len out.old + length (line numbers.now) ≤ N }
    ensures { out.new.items ≡ out.old.items ++ line numbers.now }
{
    for (i, number) in numbers.iter().enumerate() {
        put_field(out, *number, lines::sep_of(numbers.len() - i - 1));
    }
}
