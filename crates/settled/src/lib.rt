// What a document's bytes say that a header was settled into: a question compares bytes and reads no text again.
#![tactic(auto)]

ghost use Rattle.std.specs.Prelude.{◌≡◌, ◌+◌, ◌≤◌, ◌<◌, ◌^◌, min, length, drop, false};
ghost use Rattle.origins.specs.Origins.Origin.{tuple};
ghost use Rattle.std.specs.Iterator.{YieldsFirstBy, item_count};
ghost use Rattle.origins.specs.Answers.{origin_in, tuple_by, expression_by};
ghost use Rattle.allowlists.specs.Allowlists.{any_admits, some_admits};
ghost use Rattle.settled.specs.Settled.{word, word_at, scheme_bits, host_bits, port_bits, parts_of, expressions_from, declared_in};
ghost use Rattle.settled.specs.Answers.{IsExpressionAt, IsList};

use ascii::TextRange;
use origins::{
    ExpressionParts, ExpressionRange, HostKind, OriginRange, PortPart, Scheme, TupleParts,
};

// Bytes of an entry of the head, and of the head: an entry for each of the seventeen features.
pub const ENTRY: usize = 5;

pub const HEAD: usize = 85;

// A list without `*`: whether it has `self`, where its expressions start, and how many they are.
#[derive(Clone, Copy)]
pub struct ListRange {
    pub own: bool,
    pub at: usize,
    pub count: usize,
}

// What the bytes say for a feature that is declared.
#[derive(Clone, Copy)]
pub enum ListFound {
    All,
    Listed(ListRange),
}

// Two bytes as a number, the lower first.
fn word(x: u8, y: u8) -> u32
    ensures { (result ≡ word x y) × (result < 65536) }
{
    u32::from(x) + 256 * u32::from(y)
}

#[tactic(auto, unfolding(ascii::specs::Bytes::pick))]
fn scheme_bits(b: u8) -> Scheme
    ensures { result ≡ scheme_bits b }
{
    match b {
        0 => Scheme::Http,
        _ => Scheme::Https,
    }
}

#[tactic(auto, unfolding(ascii::specs::Bytes::pick))]
fn host_bits(b: u8) -> Option<HostKind>
    ensures { result ≡ host_bits b }
{
    match b {
        0 => None,
        1 => Some(HostKind::Any),
        2 => Some(HostKind::Exact),
        _ => Some(HostKind::Subdomains),
    }
}

#[tactic(auto, unfolding(ascii::specs::Bytes::pick))]
fn port_bits(b: u8, p: u32) -> PortPart
    ensures { result ≡ port_bits b p }
{
    match b {
        0 => PortPart::Default,
        1 => PortPart::Any,
        _ => PortPart::Number(p),
    }
}

// An expression's parts by its kind and its port.
fn parts_of(kind: u8, p: u32) -> ExpressionParts
    ensures { result ≡ parts_of kind p }
{
    ExpressionParts {
        scheme: scheme_bits(kind % 2),
        host: host_bits(kind / 2 % 4),
        port: port_bits(kind / 8, p),
    }
}

// Where the host of an expression ends; it may be cut.
fn host_end(d: &[u8], from: usize, n: u8) -> usize
    requires { from ≤ length d.now }
    ensures { result ≡ min (from + n) (length d.now) }
{
    d.len().min(from + usize::from(n))
}

// The expression at a place, where one is. Its host is a range of the bytes, and the next expression starts where the host ends.
pub fn expression_at(d: &[u8], at: usize) -> Option<ExpressionRange>
    ensures { IsExpressionAt d.now at result }
{
    if d.len() < at {
        return None;
    }
    if d.len() - at < 4 {
        return None;
    }
    let from = at + 4;
    let to = host_end(d, from, d[at + 1]);
    let parts = parts_of(d[at], word(d[at + 2], d[at + 3]));
    let host = TextRange { from, to };
    Some(ExpressionRange { parts, host })
}

// The expressions of a list, one after the other: so many from a place on, fewer where the bytes end before. Each is its parts beside its host.
#[derive(Clone, Copy, Drop)]
pub struct Expressions<'a> {
    pub bytes: &'a [u8],
    pub at: usize,
    pub count: usize,
}

impl<'a> Iterator for Expressions<'a> {
    type Item = (ExpressionParts, &'a [u8]);

    ghost next_gives = { YieldsFirstBy (λ x. expression_by x.0 x.1.now) (λ s. expressions_from s.count (drop s.at s.bytes.now)) };

    ghost remaining = { item_count (λ s. expressions_from s.count (drop s.at s.bytes.now)) };

    fn next(&mut self) -> Option<(ExpressionParts, &'a [u8])> {
        if self.count == 0 {
            return None;
        }
        let bytes = self.bytes;
        let Some(e) = expression_at(bytes, self.at) else {
            self.count = 0;
            return None;
        };
        self.at = e.host.to;
        self.count -= 1;
        Some((e.parts, e.host.of(bytes)))
    }
}

// Whether one of so many expressions from a place on admits a tuple origin, by its parts.
fn expressions_admit(d: &[u8], at: usize, count: usize, o: TupleParts, h: &[u8]) -> bool
    ensures { result ≡ any_admits (expressions_from count (drop at d.now)) (tuple (tuple_by o h.now)) }
{
    let mut list = Expressions {
        bytes: d,
        at,
        count,
    };
    list.any(|(parts, host)| origins::parts_admit(parts, host, o, h))
}

// The number at a place.
fn word_at(s: &[u8], at: usize) -> usize
    requires { at < 2 ^ 35 }
    ensures { (result ≡ word_at s.now at) × (result < 65536) }
{
    word(ascii::byte(s, at), ascii::byte(s, at + 1)) as usize
}

// What a document's bytes say for a feature, if they declare it.
pub fn list_of(d: &[u8], feature: u32) -> Option<ListFound>
    ensures { IsList d.now feature result }
{
    if features::COUNT as u32 <= feature {
        return None;
    }
    let i = ENTRY * (feature as usize);
    let mark = ascii::byte(d, i);
    if mark == 0 {
        return None;
    }
    if mark == 1 {
        return Some(ListFound::All);
    }
    Some(ListFound::Listed(ListRange {
        own: mark == 3,
        at: HEAD + word_at(d, i + 1),
        count: word_at(d, i + 3),
    }))
}

// Whether one of so many expressions from a place on admits an origin.
fn sources_admit(d: &[u8], at: usize, count: usize, t: &[u8], o: OriginRange) -> bool
    ensures { result ≡ any_admits (expressions_from count (drop at d.now)) (origin_in t.now o) }
{
    match o {
        OriginRange::Tuple(r) => expressions_admit(d, at, count, r.parts, r.host.of(t)),
        OriginRange::Opaque(_) => false,
        OriginRange::Fresh => false,
    }
}

// Whether what a document's bytes say for a feature admits an origin; `same`: it is the document's own.
pub fn admits(d: &[u8], feature: u32, same: bool, t: &[u8], o: OriginRange) -> Option<bool>
    ensures { result ≡ some_admits (declared_in d.now feature) same false (origin_in t.now o) }
{
    match list_of(d, feature)? {
        ListFound::All => Some(true),
        ListFound::Listed(l) => {
            let own = l.own & same;
            if own {
                return Some(true);
            }
            Some(sources_admit(d, l.at, l.count, t, o))
        }
    }
}

// The same of a document that stands at a place of a run; a place past the end is the end.
pub fn admits_at(
    run: &[u8],
    at: usize,
    feature: u32,
    same: bool,
    t: &[u8],
    o: OriginRange,
) -> Option<bool>
    ensures { result ≡ some_admits (declared_in (drop at run.now) feature) same false (origin_in t.now o) }
{
    let p = ascii::place(run, at);
    admits(&run[p..], feature, same, t, o)
}
