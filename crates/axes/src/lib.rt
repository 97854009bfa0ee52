// What the program prints of the verdict on one axis.
#![tactic(auto)]

ghost use Rattle.std.specs.Prelude.{◌≡◌, ◌++◌, ◌+◌, ◌≤◌, length};
ghost use Rattle.arrayvec.specs.ArrayVec.{array_vec_len};
ghost use Rattle.axes.specs.Text.{axis_line};

use arrayvec::ArrayVec;
use paper::Judged;

// The line of an axis.
pub fn put_axis<const N: usize>(out: &mut ArrayVec<u8, N>, name: &[u8], axis: Judged)
    requires { array_vec_len out.old + length (axis_line name.now axis) ≤ N }
    ensures { out.new.items ≡ out.old.items ++ axis_line name.now axis }
{
    printing::put_fixed(out, name);
    printing::put_either(out, axis.within, b"WITHIN ", b"BEYOND ");
    printing::put_numbers(out, &[i128::from(axis.m), i128::from(axis.b)]);
}
