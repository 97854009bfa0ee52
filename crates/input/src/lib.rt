// An input, read to its end into a lent buffer.
#![tactic(auto)]

ghost use Rattle.std.specs.Prelude.{◌+◌, ◌<◌, ◌≤◌, max, ◌≡◌, length, take, drop, IfOk};
ghost use Rattle.std.specs.Io.KnownBytes.{ReadConsumes};
ghost use Rattle.input.specs.Input.{Holds};

use std::io;
use std::io::{ErrorKind, Read};

// One read. One that a signal interrupts is tried again: it brought nothing, and is not the end. What the last turn gives is handed on.
fn read_through<R: Read>(reader: &mut R, row: &mut [u8]) -> io::Result<usize>
    ensures within { IfOk result (λ n. n ≤ length row.old) }
    ensures brings { ReadConsumes (R.remaining reader.old) (R.remaining reader.new) result row.new }
{
    for _ in 1..u64::MAX {
        match reader.read(row) {
            Err(e) if e.kind() == ErrorKind::Interrupted => {}
            got => return got,
        }
    }
    reader.read(row)
}

// One read into the buffer, from that byte on.
fn read_once<R: Read>(reader: &mut R, buffer: &mut [u8], from: usize) -> io::Result<usize>
    requires { from ≤ length buffer.old }
    ensures within { IfOk result (λ n. from + n ≤ length buffer.old) }
    ensures front { take from buffer.new ≡ take from buffer.old }
    ensures brings { ReadConsumes (R.remaining reader.old) (R.remaining reader.new) result (drop from buffer.new) }
{
    read_through(reader, &mut buffer[from..])
}

// Where the next bytes go: behind those that came, or over them where the buffer is full. A buffer that has room at all has some there, so
// that a read which brings nothing is the end of the input.
fn next_place(len: usize, room: usize) -> usize
    ensures bound { result < max 1 room }
    ensures behind { len < room → result ≡ len }
{
    if len < room { len } else { 0 }
}

// Reads to the end of the input, however long: of one longer than the buffer, as many bytes are held as the buffer has.
// A proved loop has to end: it has as many turns as no run uses up.
pub fn fill<R: Read>(reader: &mut R, buffer: &mut [u8]) -> io::Result<usize>
    ensures within { IfOk result (λ n. n ≤ length buffer.old) }
    ensures holds { IfOk result (λ n. Holds n (R.remaining reader.old) (R.remaining reader.new) buffer.new) }
{
    let mut len: usize = 0;
    for _turn in 0..u64::MAX {
        let from = next_place(len, buffer.len());
        let n = read_once(reader, buffer, from)?;
        if n == 0 {
            return Ok(len);
        }
        len = len.max(from + n);
    }
    Ok(len)
}
