// Differences of lengths, and the limit of a screening length.
#![tactic(auto)]

ghost use Rattle.std.specs.Prelude.{◌≡◌, not, ◌+◌, ◌-◌, ◌*◌, ◌^◌, ◌≤◌, ◌<◌, ltb, pos, nat_abs, ◌-ℤ◌};
ghost use Rattle.whole.specs.Nearest.{nearest_of};
ghost use Rattle.paper.specs.Screening.{square, passes};
ghost use Rattle.image.specs.Lengths.{ORIGIN, len};
ghost use Rattle.image.specs.Ready.{IsSpread};
ghost use Rattle.limits.specs.Most.{most_passing};

use image::ORIGIN;

// By how much two lengths differ.
pub fn apart(a: u64, b: u64) -> u64
    ensures { (result ≡ nat_abs (len a -ℤ len b)) × (result ≡ a - b + (b - a)) }
{
    a.abs_diff(b)
}

// 25·s², which twice the square of a difference may reach. The screening length s is a word.
fn limit(s: u64) -> u64
    requires { IsSpread s }
    ensures { (result ≡ 25 * square (len s)) × (result ≤ 2500000000) }
{
    let k = s - ORIGIN;
    25 * (k * k)
}

// The greatest difference that passes.
pub fn most_passing(s: u64) -> u64
    requires { IsSpread s }
    ensures { result ≡ most_passing (len s) }
{
    let most = limit(s);
    roots::greatest(2, most)
}

// Whether the nearest root of q is further than most from a number. No root is taken.
pub fn further(q: u64, about: u64, most: u64) -> bool
    requires { about + most < 2 ^ 32 }
    ensures { result ≡ ltb most (nat_abs (pos (nearest_of q) -ℤ pos about)) }
{
    if roots::nearest_at_most(q, about + most) {
        if most < about {
            return roots::nearest_at_most(q, about - most - 1);
        }
        return false;
    }
    true
}

// Whether a difference is beyond the limit of a screening length.
pub fn beyond(s: u64, d: u64) -> bool
    requires { IsSpread s × (d ≤ 2000000) }
    ensures { result ≡ not (passes (len s) d) }
{
    let most = limit(s);
    most < 2 * (d * d)
}
