// Rows of numbers: in blocks of one width, pasted over one another, and what holds of each element (specs/, proofs/). The code is a row of
// fixed room.
#![tactic(auto)]

ghost use Rattle.std.specs.Prelude.{◌≡◌, ◌++◌, ◌-◌, ◌≤◌, length, replicate};

// These bytes, and zeros behind them.
pub fn padded<const N: usize>(bytes: &[u8]) -> [u8; N]
    requires { length bytes.now ≤ N }
    ensures { result ≡ bytes.now ++ replicate (N - length bytes.now) 0 }
{
    let mut row = [0; N];
    row[..bytes.len()].copy_from_slice(bytes);
    row
}
