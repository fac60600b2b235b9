// A hash of an expression's normal form, and the first place of a number among others: whoever looks for an expression needn't compare those before the first of its hash.
#![tactic(auto)]

ghost use Rattle.std.specs.Prelude.{◌≡◌, ◌+◌, ◌*◌, ◌%◌};
ghost use Rattle.ascii.specs.Texts.{every};
ghost use Rattle.origins.specs.Answers.{expression_by};
ghost use Rattle.origins.specs.NormalForms.{normal};
ghost use Rattle.hashes.specs.Hashes.{text_hash, scheme_hash, port_hash, hash_of, is_other, first_place};

use origins::{ExpressionParts, HostKind, PortPart, Scheme};

// The hash of a text and one byte more.
fn with_byte(x: u16, b: u8) -> u16
    ensures { result ≡ (31 * x + b) % 65536 }
{
    ((31 * u32::from(x) + u32::from(b)) % 65536) as u16
}

// The hash of a text, from a number on.
fn text_hash(start: u16, t: &[u8]) -> u16
    ensures { result ≡ text_hash start t.now }
{
    let mut x = start;
    for b in t {
        x = with_byte(x, *b);
    }
    x
}

fn scheme_hash(k: Scheme) -> u16
    ensures { result ≡ scheme_hash k }
{
    match k {
        Scheme::Http => 0,
        Scheme::Https => 31,
    }
}

fn port_hash(p: PortPart) -> u16
    ensures { result ≡ port_hash p }
{
    match p {
        PortPart::Default => 0,
        PortPart::Any => 1,
        PortPart::Number(n) => (n % 65536) as u16,
    }
}

// The hash of an expression's normal form, by its parts and its host.
pub fn hash(e: ExpressionParts, h: &[u8]) -> u16
    ensures { result ≡ hash_of (normal (expression_by e h.now)) }
{
    let k = e.scheme;
    let own = e.port;
    let x = scheme_hash(k).wrapping_add(port_hash(origins::normal_port(k, own)));
    let Some(kind) = e.host else {
        return x;
    };
    match kind {
        HostKind::Any => with_byte(x, b'*'),
        HostKind::Exact => text_hash(x, h),
        HostKind::Subdomains => text_hash(with_byte(x, b'*'), h),
    }
}

// Whether all numbers are others than this one. It doesn't leave at the first, so that the compiler compares several at a time.
fn all_other(numbers: &[u16], x: u16) -> bool
    ensures { result ≡ every (is_other x) numbers.now }
{
    let mut other = true;
    for n in numbers {
        other &= *n != x;
    }
    other
}

// The first place of a number; past the last where there is none.
pub fn first_place(numbers: &[u16], x: u16) -> usize
    ensures { result ≡ first_place x numbers.now }
{
    if all_other(numbers, x) {
        return numbers.len();
    }
    for (i, n) in numbers.iter().enumerate() {
        if *n == x {
            return i;
        }
    }
    numbers.len()
}
