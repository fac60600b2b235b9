// Texts put into a lent run of bytes, from a place on. The answer is the place after the text; where not all of it has room, one past the run's end: what is put from there on
// is left out too, so whoever puts texts one after the other looks at the last place alone, and the run's bytes are known in each case. With an Option each would have to leave by `?`.
#![tactic(auto)]

ghost use Rattle.std.specs.Prelude.{[], ◌∷◌};
ghost use Rattle.ascii.specs.Decimals.{decimal_text};
ghost use Rattle.writing.specs.Writing.{Puts};

// Puts a text at a place: as much of it as the run has room for.
#[tactic(auto, using(crate::proofs::Copies::puts))]
pub fn put(run: &mut [u8], at: usize, t: &[u8]) -> usize
    ensures { Puts run.old at t.now run.new result }
{
    if run.len() < at {
        return run.len() + 1;
    }
    let n = t.len().min(run.len() - at);
    run[at..at + n].copy_from_slice(&t[..n]);
    if n < t.len() { run.len() + 1 } else { at + n }
}

// Puts one byte.
#[tactic(auto, using(crate::proofs::Copies::puts))]
pub fn put_byte(run: &mut [u8], at: usize, b: u8) -> usize
    ensures { Puts run.old at (b ∷ []) run.new result }
{
    if run.len() <= at {
        return run.len() + 1;
    }
    run[at] = b;
    at + 1
}

// Puts a number in decimal: what stands before its last digit, and that.
pub fn put_decimal(run: &mut [u8], at: usize, n: u64) -> usize
    ensures { Puts run.old at (decimal_text n) run.new result }
{
    if n < 10 {
        return put_byte(run, at, b'0' + n as u8);
    }
    let o = put_decimal(run, at, n / 10);
    put_byte(run, o, b'0' + (n % 10) as u8)
}
