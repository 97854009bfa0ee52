// Evaluates one field file: reads standard input to its end, and writes what document 01 says to standard output.
#![tactic(auto)]

// One byte more than a file may have, so that a longer input is held as one that is too long.
const ROOM: usize = contents::LONGEST + 1;

// Writes the report of a file; a failure to write is told on standard error.
fn print(rt: &(impl Print + Eprint), file: &[u8]) {
    let printed = filequestions::report_file(file);
    let text = printed.bytes;
    if let Err(e) = rt.write_all(&text[..printed.len]) {
        let _ = eprintln!(rt; "standard output: {e}");
    }
}

fn main(rt: HostRuntime) {
    let mut buffer = [0u8; ROOM];
    match input::fill(&mut rt.stdin(), &mut buffer) {
        Ok(n) => print(&rt, &buffer[..n]),
        Err(e) => {
            let _ = eprintln!(rt; "standard input: {e}");
        }
    }
}
