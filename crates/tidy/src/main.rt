// Reads one header on standard input, every byte as it comes, to its end, and writes its tidied form, or the refusal's number, and a line feed.
#![tactic(auto)]

ghost use Rattle.std.specs.Io.{ReadsAtMost};

use limits::TEXT_BYTES;
use std::io;
use std::io::Read;

// What is left of the input is read in pieces of so many bytes.
const REST_BYTES: usize = 4096;

// Reads what is left of the input and drops it, in at most 2^64 - 1 reads.
fn read_rest(input: &mut impl Read) -> io::Result<()> {
    let mut run = [0u8; REST_BYTES];
    for _ in 0..u64::MAX {
        if input.read(&mut run)? == 0 {
            return Ok(());
        }
    }
    Ok(())
}

// Reads the input to its end and keeps as much as the run has room for; the answer is how many bytes are kept.
fn read_input(input: &mut impl Read, run: &mut [u8]) -> io::Result<usize>
    ensures { ReadsAtMost result run.new }
{
    let n = reading::read_full(input, run)?;
    if run.len() <= n {
        read_rest(input)?;
    }
    Ok(n)
}

// Writes the answer to a header.
fn answer(rt: &impl Print, header: &[u8]) -> io::Result<()> {
    let mut out = [0u8; TEXT_BYTES];
    match tidying::tidy(header, &mut out) {
        Ok(n) => rt.write_all(ascii::part(&out, 0, n))?,
        Err(r) => rt.print(limits::refusal_number(r))?,
    }
    rt.write_all(b"\n")
}

fn main(rt: HostRuntime) {
    // One byte more than the limit tells a header that is too long.
    let mut run = [0u8; TEXT_BYTES + 1];
    let told = match read_input(&mut rt.stdin(), &mut run) {
        Ok(n) => match answer(&rt, ascii::part(&run, 0, n)) {
            Ok(()) => Ok(()),
            Err(_) => rt.eprintln("tidy: standard output can't be written"),
        },
        Err(_) => rt.eprintln("tidy: standard input can't be read"),
    };
    let _ = told;
}
