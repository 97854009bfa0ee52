// What the program prints of two verdicts.
#![tactic(auto)]

ghost use Rattle.std.specs.Prelude.{◌≡◌, ◌++◌, ◌+◌, ◌≤◌, length};
ghost use Rattle.arrayvec.specs.ArrayVec.{array_vec_len};
ghost use Rattle.verdicts.specs.Text.{verdict_text};

use arrayvec::ArrayVec;
use paper::Judged;

// Both lines, and PASS or FAIL.
pub fn put_verdicts<const N: usize>(out: &mut ArrayVec<u8, N>, xy: Judged, h: Judged)
    requires { array_vec_len out.old + length (verdict_text xy h) ≤ N }
    ensures { out.new.items ≡ out.old.items ++ verdict_text xy h }
{
    axes::put_axis(out, b"XY ", xy);
    axes::put_axis(out, b"H ", h);
    printing::put_either(out, xy.within & h.within, b"PASS\n", b"FAIL\n");
}
