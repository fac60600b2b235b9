// Numbers and texts in a lent run of bytes: a number has four bytes, the lowest first.
#![tactic(auto)]

ghost use Rattle.std.specs.Prelude.{◌≡◌, [], ◌∷◌, ◌+◌, ◌≤◌, ◌<◌, length};
ghost use Rattle.writing.specs.Writing.{with_text};
ghost use Rattle.lent_bytes.specs.Numbers.{number_at, bytes_of, bytes_at};

// Bytes of a number.
pub const NUMBER: usize = 4;

// The number at a place.
#[tactic(auto, unfolding(crate::specs::Numbers::number_at))]
pub fn number(run: &[u8], at: usize) -> u32
    requires { at + 4 ≤ length run.now }
    ensures { result ≡ number_at run.now at }
{
    u32::from_le_bytes([run[at], run[at + 1], run[at + 2], run[at + 3]])
}

// So many bytes from a place on.
pub fn part(run: &[u8], at: usize, n: usize) -> &[u8]
    requires { at + n ≤ length run.now }
    ensures { result.now ≡ bytes_at run.now at n }
{
    &run[at..at + n]
}

// Puts a text at a place.
#[tactic(auto, using(crate::proofs::Reading::copied))]
pub fn put_text(run: &mut [u8], at: usize, t: &[u8])
    requires { at + length t.now ≤ length run.old }
    ensures { run.new ≡ with_text run.old at t.now }
{
    run[at..at + t.len()].copy_from_slice(t);
}

// Puts a number at a place.
#[tactic(auto, unfolding(crate::specs::Numbers::bytes_of))]
pub fn put_number(run: &mut [u8], at: usize, x: u32)
    requires { at + 4 ≤ length run.old }
    ensures { run.new ≡ with_text run.old at (bytes_of x) }
{
    put_text(run, at, &x.to_le_bytes());
}

// Puts one byte at a place.
#[tactic(auto, using(writing::proofs::Copies::one_byte))]
pub fn put_one(run: &mut [u8], at: usize, x: u8)
    requires { at < length run.old }
    ensures { run.new ≡ with_text run.old at (x ∷ []) }
{
    run[at] = x;
}
