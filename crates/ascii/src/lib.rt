// Bytes and places of a text: classes, ASCII case, comparing, parts, runs.
#![tactic(auto)]

ghost use Rattle.std.specs.List.{list_all, zip};
ghost use Rattle.std.specs.Prelude.{◌==◌, ◌≡◌, ℕ, Bool, List, not, eqb, ◌+◌, ◌-◌, ◌≤◌, min, length, drop};
ghost use Rattle.ascii.specs.Bytes.{is_space, is_blank, is_digit, is_key_start, is_key_byte, is_token_start, is_token_byte, is_base64, is_text, is_label_byte, is_white, lower};
ghost use Rattle.ascii.specs.Texts.{four_same, same_bytes, same_lowered, part_of, part_in};
ghost use Rattle.ascii.specs.Decimals.{decimal_upto};
ghost use Rattle.ascii.specs.Places.{IsByte, IsRun, IsFrom, IsTurn};
ghost use Rattle.ascii.specs.Reading.{Step, turns_of};

// A class of bytes: what the bytes of a run have in common.
pub trait Class: Copy {
    ghost holds: { Self → ℕ → Bool };

    fn has(self, b: u8) -> bool
        ensures { result ≡ holds self b };
}

#[derive(Clone, Copy)]
pub struct Space;

impl Class for Space {
    ghost holds = { λ k b. is_space b };

    fn has(self, b: u8) -> bool {
        b == b' '
    }
}

// RFC 8941's OWS: space and tab.
#[derive(Clone, Copy)]
pub struct Blank;

impl Class for Blank {
    ghost holds = { λ k b. is_blank b };

    fn has(self, b: u8) -> bool {
        (b == b' ') | (b == b'\t')
    }
}

// The five bytes that part the words of an attribute: tab, line feed, form feed, return, space.
#[derive(Clone, Copy)]
pub struct White;

impl Class for White {
    ghost holds = { λ k b. is_white b };

    fn has(self, b: u8) -> bool {
        (b == 9) | (b == 10) | (b == 12) | (b == 13) | (b == 32)
    }
}

#[derive(Clone, Copy)]
pub struct Digit;

impl Class for Digit {
    ghost holds = { λ k b. is_digit b };

    fn has(self, b: u8) -> bool {
        is_digit(b)
    }
}

#[derive(Clone, Copy)]
pub struct Key;

impl Class for Key {
    ghost holds = { λ k b. is_key_byte b };

    fn has(self, b: u8) -> bool {
        (b >= b'a') & (b <= b'z')
            | (b >= b'0') & (b <= b'9')
            | (b == b'_')
            | (b == b'-')
            | (b == b'.')
            | (b == b'*')
    }
}

#[derive(Clone, Copy)]
pub struct Token;

impl Class for Token {
    ghost holds = { λ k b. is_token_byte b };

    fn has(self, b: u8) -> bool {
        (b >= b'A') & (b <= b'Z')
            | (b >= b'a') & (b <= b'z')
            | (b >= b'0') & (b <= b'9')
            | (b == b'!')
            | (b >= b'#') & (b <= b'\'')
            | (b == b'*')
            | (b == b'+')
            | (b >= b'-') & (b <= b'/')
            | (b == b':')
            | (b >= b'^') & (b <= b'`')
            | (b == b'|')
            | (b == b'~')
    }
}

#[derive(Clone, Copy)]
pub struct Base64;

impl Class for Base64 {
    ghost holds = { λ k b. is_base64 b };

    fn has(self, b: u8) -> bool {
        (b >= b'A') & (b <= b'Z')
            | (b >= b'a') & (b <= b'z')
            | (b >= b'0') & (b <= b'9')
            | (b == b'+')
            | (b == b'/')
            | (b == b'=')
    }
}

// Any byte that is not of a class.
#[derive(Clone, Copy)]
pub struct Outside<K>(pub K);

impl<K: Class> Class for Outside<K> {
    ghost holds = { λ k b. not (K.holds k.0 b) };

    fn has(self, b: u8) -> bool {
        !self.0.has(b)
    }
}

// One byte alone.
#[derive(Clone, Copy)]
pub struct Only(pub u8);

impl Class for Only {
    ghost holds = { λ k b. eqb b k.0 };

    fn has(self, b: u8) -> bool {
        b == self.0
    }
}

// RFC 5234: DIGIT.
pub fn is_digit(b: u8) -> bool
    ensures { result ≡ is_digit b }
{
    b.is_ascii_digit()
}

// The start of a key.
pub fn is_key_start(b: u8) -> bool
    ensures { result ≡ is_key_start b }
{
    (b >= b'a') & (b <= b'z') | (b == b'*')
}

// The start of a token.
pub fn is_token_start(b: u8) -> bool
    ensures { result ≡ is_token_start b }
{
    (b >= b'A') & (b <= b'Z') | (b >= b'a') & (b <= b'z') | (b == b'*')
}

// A character of a string.
pub fn is_text(b: u8) -> bool
    ensures { result ≡ is_text b }
{
    (b >= b' ') & (b <= b'~')
}

pub fn is_label_byte(b: u8) -> bool
    ensures { result ≡ is_label_byte b }
{
    (b >= b'a') & (b <= b'z') | (b >= b'0') & (b <= b'9') | (b == b'-')
}

// The value of a digit; of a byte before `0`, 0.
pub fn digit_value(b: u8) -> u32
    ensures { result ≡ b - 48 }
{
    u32::from(b.saturating_sub(b'0'))
}

// The number that one digit or more say in decimal, worth at most so much.
pub fn decimal(digits: &[u8], most: u32) -> Option<u32>
    ensures { result ≡ decimal_upto most digits.now }
{
    if digits.is_empty() {
        return None;
    }
    let mut n: u32 = 0;
    for b in digits {
        if !is_digit(*b) {
            return None;
        }
        let tens = u64::from(n) * 10;
        let longer = tens + u64::from(digit_value(*b));
        if u64::from(most) < longer {
            return None;
        }
        n = longer as u32;
    }
    Some(n)
}

// ASCII lower case.
pub fn lower(b: u8) -> u8
    ensures { result ≡ lower b }
{
    b.to_ascii_lowercase()
}

// Whether four bytes from a place on are the same; the compiler makes one comparison of it.
fn four_same(a: &[u8], b: &[u8], i: usize) -> bool
    requires { (i + 4 ≤ length a.now) × (i + 4 ≤ length b.now) }
    ensures { result ≡ four_same a.now b.now i }
{
    (a[i] == b[i]) & (a[i + 1] == b[i + 1]) & (a[i + 2] == b[i + 2]) & (a[i + 3] == b[i + 3])
}

// Whether two texts of one length are the same from a place on.
fn same_from(a: &[u8], b: &[u8], at: usize) -> bool
    requires { (at ≤ length a.now) × (length a.now ≡ length b.now) }
    ensures { result ≡ same_bytes (drop at a.now) (drop at b.now) }
{
    let mut i = at;
    while i < a.len() {
        if a[i] != b[i] {
            return false;
        }
        i += 1;
    }
    true
}

// Whether two texts are the same bytes: by their lengths first, and then four bytes at a time. With `==`, which is a call, and byte by byte a question to a list took a third more.
pub fn same(a: &[u8], b: &[u8]) -> bool
    ensures { result ≡ same_bytes a.now b.now }
{
    let n = a.len();
    if n != b.len() {
        return false;
    }
    let mut i: usize = 0;
    while 4 <= n - i {
        if !four_same(a, b, i) {
            return false;
        }
        i += 4;
    }
    same_from(a, b, i)
}

// Whether the bytes of two texts, place by place, are the same, the letters of the first in lower case.
fn pairs_same(a: &[u8], b: &[u8]) -> bool
    ensures { result ≡ list_all (λ p. lower p.0 == p.1) (zip a.now b.now) }
{
    a.iter().zip(b).all(|(x, y)| lower(*x) == *y)
}

// Whether `a`, its letters in lower case, is `b`.
pub fn same_lowered(a: &[u8], b: &[u8]) -> bool
    ensures { result ≡ same_lowered a.now b.now }
{
    a.len() == b.len() && pairs_same(a, b)
}

// The part of a text from a place up to another; empty where that is no part of it.
pub fn part(s: &[u8], from: usize, to: usize) -> &[u8]
    ensures { result.now ≡ part_of s.now from to }
{
    s.get(from..to).unwrap_or(&[])
}

// Where a part of a text stands.
#[derive(Clone, Copy, PartialEq, Eq)]
pub struct TextRange {
    pub from: usize,
    pub to: usize,
}

impl TextRange {
    // The part of a text that the range says.
    pub fn of(self, s: &[u8]) -> &[u8]
        ensures { result.now ≡ part_in s.now self }
    {
        part(s, self.from, self.to)
    }
}

// A place of a text: one past the end is the end.
pub fn place(s: &[u8], at: usize) -> usize
    ensures { result ≡ min at (length s.now) }
{
    at.min(s.len())
}

// The byte at a place, 0 past the end.
pub fn byte(s: &[u8], at: usize) -> u8
    ensures { IsByte s.now at result }
{
    s.get(at).copied().unwrap_or(0)
}

// Where the run of bytes of a class that starts at a place ends. Most runs of a header are empty or short, and a chain over them (`take_while`, `count`) takes a quarter more instructions for a dictionary.
pub fn run_end<K: Class>(s: &[u8], at: usize, class: K) -> usize
    ensures { IsRun (K.holds class) s.now at result }
{
    for i in place(s, at)..s.len() {
        if !class.has(s[i]) {
            return i;
        }
    }
    s.len()
}

// One turn of a repeated part: another follows, or it was the last.
#[derive(Clone, Copy)]
pub enum Turn {
    More(usize),
    Done(usize),
}

// A part of a text that is repeated, by how one turn of it is read.
pub trait Repeated {
    // what a turn reads
    ghost Value: { Type 0 };

    ghost turn_of: { List ℕ → Step Value };

    // One turn at a place; `None` where the text is malformed there.
    fn turn(s: &[u8], at: usize) -> Option<Turn>
        requires { at ≤ length s.now }
        ensures { IsTurn s.now at result (turn_of (drop at s.now)) };
}

// Where a repeated part that starts at a place ends. A place past the end is the end.
pub fn turns<P: Repeated>(s: &[u8], at: usize) -> Option<usize>
    ensures { IsFrom s.now at result (turns_of P.turn_of (drop at s.now)) }
{
    let mut i = place(s, at);
    loop {
        match P::turn(s, i)? {
            Turn::More(q) => i = q,
            Turn::Done(q) => return Some(q),
        }
    }
}
