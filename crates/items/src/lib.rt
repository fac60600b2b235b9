// RFC 8941: keys, parameters and items, read at a place of a text. A place past the end is the end.
#![tactic(auto)]

ghost use Rattle.std.specs.Prelude.{◌≡◌, ◌≤◌, ℕ, length, drop};
ghost use Rattle.ascii.specs.Places.{IsRead, IsFrom, IsTurn};
ghost use Rattle.items.specs.Items.{Parameter, key_of, token_of, boolean_of, bytes_of, fraction_of, unsigned_of, number_of, string_turn, string_of, is_number_start, bare_of, param_of, param_turn, params_of, item_of};
ghost use Rattle.items.specs.Found.{IsItem};

use ascii::{Base64, Digit, Key, Repeated, Space, TextRange, Token, Turn};

// What kind of item a text is: other are numbers, byte sequences and booleans.
#[derive(Clone, Copy)]
pub enum ItemKind {
    Token,
    String,
    Other,
}

// An item: its kind, and where its text stands, a string's without the quotes.
#[derive(Clone, Copy)]
pub struct ItemRange {
    pub kind: ItemKind,
    pub text: TextRange,
}

// An item, and the place past it.
#[derive(Clone, Copy)]
pub struct ItemFound {
    pub range: ItemRange,
    pub next: usize,
}

// A key. It and `token` stay two functions: each is a production of the RFC, and they share no class.
pub fn key(s: &[u8], at: usize) -> Option<usize>
    ensures { IsRead s.now at result (key_of (drop at s.now)) }
{
    if !ascii::is_key_start(ascii::byte(s, at)) {
        return None;
    }
    Some(ascii::run_end(s, at + 1, Key))
}

fn token(s: &[u8], at: usize) -> Option<usize>
    ensures { IsRead s.now at result (token_of (drop at s.now)) }
{
    if !ascii::is_token_start(ascii::byte(s, at)) {
        return None;
    }
    Some(ascii::run_end(s, at + 1, Token))
}

fn boolean(s: &[u8], at: usize) -> Option<usize>
    ensures { IsRead s.now at result (boolean_of (drop at s.now)) }
{
    if ascii::byte(s, at) != b'?' {
        return None;
    }
    let b = ascii::byte(s, at + 1);
    if (b == b'0') | (b == b'1') {
        Some(at + 2)
    } else {
        None
    }
}

fn byte_sequence(s: &[u8], at: usize) -> Option<usize>
    ensures { IsRead s.now at result (bytes_of (drop at s.now)) }
{
    if ascii::byte(s, at) != b':' {
        return None;
    }
    let e = ascii::run_end(s, at + 1, Base64);
    if ascii::byte(s, e) != b':' {
        return None;
    }
    Some(e + 1)
}

// The digits past the point of a decimal.
fn fraction(s: &[u8], at: usize) -> Option<usize>
    ensures { IsRead s.now at result (fraction_of (drop at s.now)) }
{
    let e = ascii::run_end(s, at, Digit);
    if e <= at {
        return None;
    }
    let n = e - at;
    if n <= 3 { Some(e) } else { None }
}

// RFC 8941 section 4.2.4: an integer has at most so many digits.
const INTEGER_DIGITS: usize = 15;

// A number without its sign.
fn unsigned(s: &[u8], at: usize) -> Option<usize>
    ensures { IsRead s.now at result (unsigned_of (drop at s.now)) }
{
    let e = ascii::run_end(s, at, Digit);
    if e <= at {
        return None;
    }
    let n = e - at;
    if ascii::byte(s, e) == b'.' {
        if n <= 12 {
            return fraction(s, e + 1);
        }
        return None;
    }
    if n <= INTEGER_DIGITS { Some(e) } else { None }
}

fn number(s: &[u8], at: usize) -> Option<usize>
    ensures { IsRead s.now at result (number_of (drop at s.now)) }
{
    if ascii::byte(s, at) == b'-' {
        return unsigned(s, at + 1);
    }
    unsigned(s, at)
}

// The characters of a string, up to its last quote.
struct Characters;

impl Repeated for Characters {
    ghost Value = { ℕ };

    ghost turn_of = { string_turn };

    // A turn goes by ifs: the last arm of a match on bytes has no facts on the arms before it.
    fn turn(s: &[u8], at: usize) -> Option<Turn> {
        let b = ascii::byte(s, at);
        if b == b'\\' {
            let e = ascii::byte(s, at + 1);
            if (e == b'"') | (e == b'\\') {
                Some(Turn::More(at + 2))
            } else {
                None
            }
        } else if b == b'"' {
            Some(Turn::Done(at + 1))
        } else if ascii::is_text(b) {
            Some(Turn::More(at + 1))
        } else {
            None
        }
    }
}

fn string(s: &[u8], at: usize) -> Option<usize>
    ensures { IsRead s.now at result (string_of (drop at s.now)) }
{
    if ascii::byte(s, at) != b'"' {
        return None;
    }
    ascii::turns::<Characters>(s, at + 1)
}

fn is_number_start(b: u8) -> bool
    ensures { result ≡ is_number_start b }
{
    (b == b'-') | (b >= b'0') & (b <= b'9')
}

// Where a bare item ends.
fn bare(s: &[u8], at: usize) -> Option<usize>
    ensures { IsRead s.now at result (bare_of (drop at s.now)) }
{
    let b = ascii::byte(s, at);
    if b == b'"' {
        return string(s, at);
    }
    if ascii::is_token_start(b) {
        return token(s, at);
    }
    if is_number_start(b) {
        return number(s, at);
    }
    if b == b':' {
        return byte_sequence(s, at);
    }
    if b == b'?' {
        return boolean(s, at);
    }
    None
}

// A bare item.
pub fn bare_item(s: &[u8], at: usize) -> Option<ItemFound>
    ensures { IsItem s.now at result (bare_of (drop at s.now)) }
{
    let next = bare(s, at)?;
    let b = ascii::byte(s, at);
    let (kind, text) = if b == b'"' {
        (
            ItemKind::String,
            TextRange {
                from: at + 1,
                to: next - 1,
            },
        )
    } else if ascii::is_token_start(b) {
        (ItemKind::Token, TextRange { from: at, to: next })
    } else {
        (ItemKind::Other, TextRange { from: at, to: at })
    };
    Some(ItemFound {
        range: ItemRange { kind, text },
        next,
    })
}

// A parameter past its semicolon.
fn param(s: &[u8], at: usize) -> Option<usize>
    requires { at ≤ length s.now }
    ensures { IsRead s.now at result (param_of (drop at s.now)) }
{
    let q = key(s, ascii::run_end(s, at, Space))?;
    if ascii::byte(s, q) == b'=' {
        bare(s, q + 1)
    } else {
        Some(q)
    }
}

struct Parameters;

impl Repeated for Parameters {
    ghost Value = { Parameter };

    ghost turn_of = { param_turn };

    fn turn(s: &[u8], at: usize) -> Option<Turn> {
        if ascii::byte(s, at) != b';' {
            return Some(Turn::Done(at));
        }
        let q = param(s, at + 1)?;
        Some(Turn::More(q))
    }
}

// Parameters: mostly there are none.
pub fn params(s: &[u8], at: usize) -> Option<usize>
    ensures { IsFrom s.now at result (params_of (drop at s.now)) }
{
    if ascii::byte(s, at) != b';' {
        return Some(ascii::place(s, at));
    }
    ascii::turns::<Parameters>(s, at)
}

// An item: a bare item and its parameters.
pub fn item(s: &[u8], at: usize) -> Option<ItemFound>
    ensures { IsItem s.now at result (item_of (drop at s.now)) }
{
    let bare = bare_item(s, at)?;
    let next = params(s, bare.next)?;
    Some(ItemFound { next, ..bare })
}
