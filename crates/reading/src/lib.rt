// A lent run of bytes, filled from a reader.
#![tactic(auto)]

ghost use Rattle.std.specs.Io.KnownBytes.{Consumes, IsAtEnd};
ghost use Rattle.std.specs.Io.{ReadsAtMost};
ghost use Rattle.std.specs.Prelude.{ℕ, ◌<◌, length, take, IfOk, OnErr};

use std::io;
use std::io::Read;

// Reads until the run is full or the input ends; the answer is how many bytes were read. After a failure too, what was read stands at the run's start.
pub fn read_full<R: Read>(input: &mut R, run: &mut [u8]) -> io::Result<usize>
    ensures within { ReadsAtMost result run.new }
    ensures bytes { IfOk result (λ n. Consumes (R.remaining input.old) (R.remaining input.new) (take n run.new)) }
    ensures end { IfOk result (λ n. n < length run.new → IsAtEnd (R.remaining input.new)) }
    ensures err { OnErr result ((n : ℕ) × Consumes (R.remaining input.old) (R.remaining input.new) (take n run.new)) }
{
    let mut n: usize = 0;
    // a loop over `read`: the library's `read_exact` says nothing of the bytes before a failure, and `read_to_end` allocates
    while n < run.len() {
        let k = input.read(&mut run[n..])?;
        if k == 0 {
            return Ok(n);
        }
        n += k;
    }
    Ok(n)
}

#[cfg(test)]
mod tests {
    use super::read_full;
    use std::io;
    use std::io::{ErrorKind, Read};

    // Gives a byte a read, so many times, and then fails.
    #[derive(Drop)]
    struct Failing(usize);

    impl Read for Failing {
        fn read(&mut self, buf: &mut [u8]) -> io::Result<usize> {
            if self.0 == 0 || buf.len() == 0 {
                return Err(io::Error::from(ErrorKind::Other));
            }
            self.0 -= 1;
            buf[0] = b'x';
            Ok(1)
        }
    }

    #[test]
    fn reads_to_the_end_or_as_much_as_has_room(rt: HostRuntime) {
        let mut input: &[u8] = b"abcde";
        let mut two = [0u8; 2];
        assert_eq!(rt; read_full(&mut input, &mut two).ok(), Some(2));
        assert!(rt; two == *b"ab");
        let mut four = [b'.'; 4];
        assert_eq!(rt; read_full(&mut input, &mut four).ok(), Some(3));
        assert!(rt; four == *b"cde.");
        assert_eq!(rt; read_full(&mut input, &mut four).ok(), Some(0));
    }

    #[test]
    fn a_failure_in_mid_stream_is_told(rt: HostRuntime) {
        let mut run = [b'.'; 4];
        assert!(rt; read_full(&mut Failing(2), &mut run).is_err());
        assert!(rt; run == *b"xx..");
        assert_eq!(rt; read_full(&mut Failing(4), &mut run).ok(), Some(4));
    }
}
