// The calls on a lent register as a whole: its length, a fresh one, the pass list. Any bytes may be handed in.
#![tactic(auto)]

ghost use Rattle.std.specs.Prelude.{◌≡◌, length};
ghost use Rattle.paper.specs.Calls.{fresh, ask, pass_list};
ghost use Rattle.paper.specs.Answers.{count};
ghost use Rattle.procedure.specs.Refused.{told};
ghost use Rattle.readings.specs.Answers.{count_of};
ghost use Rattle.lent.specs.Image.{LENGTH};
ghost use Rattle.lent.specs.Calls.{called, Calls};
ghost use Rattle.register.specs.Answers.{list_after};

use image::Layout;
use procedure::Refusal;
use readings::Count;

// The length that a register has, in bytes.
pub fn rtk_length() -> u64
    ensures { result ≡ LENGTH }
{
    Layout::REGISTER as u64
}

// Make a fresh register over any bytes of the right length: every book is closed.
pub fn rtk_fresh(register: &mut [u8]) -> u64
    ensures { Calls fresh register.old result register.new }
{
    if register.len() != Layout::REGISTER {
        return Refusal::Register.number();
    }
    register.fill(0);
    0
}

// The pass list written, and how many books are on it, or what refuses that.
fn passed(register: &[u8], list: &mut [u8]) -> Result<u64, Refusal>
    ensures { (count_of (told count (count 0) result) ≡ count_of (called (ask (pass_list (length list.old))) register.now).answer) × (list.new ≡ list_after (called (ask (pass_list (length list.old))) register.now).answer list.old) }
{
    if !lent::formed(register) {
        return Err(Refusal::Register);
    }
    let roll = listing::listed(register);
    if list.len() < roll.count {
        return Err(Refusal::Room);
    }
    listing::write(&roll.numbers[..roll.count], list);
    Ok(roll.count as u64)
}

// Write the numbers of the books on the pass list, rising, from the buffer's start; the bytes behind them stay.
pub fn rtk_pass_list(register: &[u8], list: &mut [u8]) -> Count
    ensures { (result ≡ count_of (called (ask (pass_list (length list.old))) register.now).answer) × (list.new ≡ list_after (called (ask (pass_list (length list.old))) register.now).answer list.old) }
{
    Count::from(passed(register, list))
}
