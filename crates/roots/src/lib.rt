// Whole roots, and what document 01 makes of them.
#![tactic(auto)]

ghost use Rattle.std.specs.Prelude.{◌≡◌, false, ◌*◌, ◌^◌, ◌≤◌, ◌<◌, leb};
ghost use Rattle.std.specs.Float.Ieee.Exact.{HasValue};
ghost use Rattle.whole.specs.Root.{Root};
ghost use Rattle.whole.specs.Greatest.{greatest_of};
ghost use Rattle.whole.specs.Nearest.{nearest_of};
ghost use Rattle.whole.specs.Millimetres.{millimetres_of};

// A number whose square is more than n.
fn above(n: u64) -> u64
    ensures { (n < result * result) × (0 < result) × (result ≤ 2 ^ 32) }
{
    if n < 4294967296 {
        return 65536;
    }
    4294967296
}

// The root of n, rounded down. The interval from low up to high, which holds it, is halved until it is one number.
fn root(n: u64) -> u64
    ensures { Root n result }
{
    let mut low: u64 = 0;
    let mut high = above(n);
    while 1 < high - low {
        let mid = low + (high - low) / 2;
        if mid * mid <= n {
            low = mid;
        } else {
            high = mid;
        }
    }
    low
}

// The greatest m with m² · a <= n.
pub fn greatest(a: u64, n: u64) -> u64
    requires { 0 < a }
    ensures { (result ≡ greatest_of a n) × (result < 2 ^ 32) }
{
    root(n / a)
}

// Whether the root of q to the nearest whole number is at most m. No root is taken.
pub fn nearest_at_most(q: u64, m: u64) -> bool
    requires { m < 2 ^ 32 }
    ensures { result ≡ leb (nearest_of q) m }
{
    q <= m * m + m
}

// m 1,024ths of a millimetre, as a double.
pub fn millimetres(m: u64) -> f64
    requires { m < 2 ^ 53 }
    ensures { (result ≡ millimetres_of m) × HasValue result false m 1024 }
{
    m as f64 / 1024.0
}
