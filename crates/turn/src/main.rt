// Reads a sheet from standard input, runs its chain and prints the result sheet, or one line: `refused`, number, place.
#![tactic(auto)]

ghost use Rattle.std.specs.Prelude.{◌≤◌, IfOk, length};

use std::io;
use std::io::{Read, Write};

// Reads to the end of the input or of `buf`, putting the pieces together: the count of bytes.
fn read_input<R: Read>(input: &mut R, buf: &mut [u8]) -> io::Result<usize>
    ensures { IfOk result (λ count. count ≤ length buf.new) }
{
    let mut at = 0;
    while at < buf.len() {
        let piece = input.read(&mut buf[at..])?;
        if piece == 0 {
            return Ok(at);
        }
        at += piece;
    }
    Ok(at)
}

fn main(rt: HostRuntime) -> io::Result<()> {
    let mut bytes = [0u8; 16385];
    let mut words = [0u32; 1024];
    let mut scratch = [0u32; 1024];
    let mut out = [0u8; 16384];
    let count = match read_input(&mut rt.reader(), &mut bytes) {
        Ok(count) => count,
        Err(error) => return eprintln!(rt; "read: {error}"),
    };
    let told = job::job(&bytes[..count], &mut words, &mut scratch, &mut out);
    let length = told.count;
    if let Err(error) = io::writer(&rt).write_all(&out[..length]) {
        return eprintln!(rt; "write: {error}");
    }
    Ok(())
}
