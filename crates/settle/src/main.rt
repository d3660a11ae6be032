// Reads one job frame from standard input and prints the answer to it, or why it is refused.
#![tactic(auto)]

ghost use Rattle.std.specs.Prelude.{◌≤◌, length, IfOk};

use printing::TEXT_MOST;
use std::io;
use std::io::Read;

// Reads until the buffer is full or the input ends, and gives how many bytes it put at the buffer's start.
fn read_full(input: &mut impl Read, buf: &mut [u8]) -> io::Result<usize>
    ensures { IfOk result (λ n. n ≤ length buf.new) }
{
    let mut done = 0;
    while done < buf.len() {
        let n = input.read(&mut buf[done..])?;
        if n == 0 {
            break;
        }
        done += n;
    }
    Ok(done)
}

// Writes all of a text in one go, or says that it cannot.
fn write(rt: &(impl Print + Eprint), text: &[u8]) {
    if rt.write_all(text).is_err() {
        let _ = eprintln!(rt; "settle: cannot write to standard output");
    }
}

fn main(rt: HostRuntime) {
    let mut input = [0u8; 65537];
    let Ok(n) = read_full(&mut rt.stdin(), &mut input) else {
        let _ = eprintln!(rt; "settle: cannot read standard input");
        return;
    };
    if 65536 < n {
        write(&rt, b"too long\n");
        return;
    }
    let mut out = [0u8; TEXT_MOST];
    let length = printing::put_reply(&input[..n], &mut out);
    write(&rt, &out[..length]);
}
