// Tidied headers: written from settled lists into a buffer of the limit's size, then copied to the lent run.
#![tactic(auto)]

ghost use Rattle.std.specs.Prelude.{◌≡◌, [], ◌∷◌, ◌++◌, map, false, length, take, drop, set, ◌≤◌, ◌<◌, MatchOption};
ghost use Rattle.limits.specs.Limits.{text_bytes};
ghost use Rattle.ascii.specs.Bytes.{pick};
ghost use Rattle.ascii.specs.Literals.{text};
ghost use Rattle.features.specs.Features.{name_of};
ghost use Rattle.origins.specs.Answers.{expression_by};
ghost use Rattle.origins.specs.NormalForms.{normal, normal_form, port_part_text};
ghost use Rattle.dictionaries.specs.Written.{item_text, value_text, member_text, written};
ghost use Rattle.allowlists.specs.Allowlists.Allowlist.{listed};
ghost use Rattle.settled.specs.Settled.{expressions_from, declared_in};
ghost use Rattle.tidying.specs.Tidied.{among, self_item, tidy_value, with_member, tidy_members};
ghost use Rattle.tidying.specs.Writing.{Adding};
ghost use Rattle.tidying.specs.Answers.{IsTidied};
ghost use Rattle.tidying.specs.Steps.{following, Spelling, source_text, source_texts, new_text, Indexed};
ghost use Rattle.hashes.specs.Hashes.{hash_of};

use limits::{Refusal, TEXT_BYTES};
use origins::{ExpressionParts, HostKind, PortPart};
use settled::{Expressions, HEAD, ListFound, ListRange};
use settling::SettleError;

// A text that grows in a buffer of the limit's size; a length past the buffer's says that it is too long.
#[derive(Drop)]
struct Text {
    bytes: [u8; TEXT_BYTES],
    len: usize,
}

impl Text {
    // The whole text, unless it is too long.
    fn whole(&self) -> Option<&[u8]>
        ensures { MatchOption result (text_bytes < self.now.len) (λ t. (self.now.len ≤ text_bytes) × (t.now ≡ take self.now.len self.now.bytes)) }
    {
        self.bytes.get(..self.len)
    }

    fn add(&mut self, t: &[u8])
        ensures { Adding self.old t.now self.new }
    {
        self.len = writing::put(&mut self.bytes, self.len, t);
    }

    fn add_byte(&mut self, b: u8)
        ensures { Adding self.old (b ∷ []) self.new }
    {
        self.len = writing::put_byte(&mut self.bytes, self.len, b);
    }

    // Adds a separator where a text stands before it.
    fn add_separator(&mut self, any: bool, sep: &[u8])
        ensures { Adding self.old (pick any sep.now []) self.new }
    {
        if any {
            self.add(sep);
        }
    }

    // Adds a port-part.
    fn add_port(&mut self, p: PortPart)
        ensures { Adding self.old (port_part_text p) self.new }
    {
        match p {
            PortPart::Default => {}
            PortPart::Any => self.add(b":*"),
            PortPart::Number(n) => {
                let digits = origins::port_text(n);
                self.add_byte(b':');
                self.add(digits.text());
            }
        }
    }

    // Adds the normal form of an expression, by its parts and its host.
    fn add_expression(&mut self, e: ExpressionParts, h: &[u8])
        ensures { Adding self.old (normal_form (expression_by e h.now)) self.new }
    {
        let Some(kind) = e.host else {
            self.add(e.scheme.text());
            return;
        };
        self.add(e.scheme.slashes());
        let p = origins::normal_port(e.scheme, e.port);
        match kind {
            HostKind::Any => {
                self.add_byte(b'*');
                self.add_port(p);
            }
            HostKind::Exact => {
                self.add(h);
                self.add_port(p);
            }
            HostKind::Subdomains => {
                self.add(b"*.");
                self.add(h);
                self.add_port(p);
            }
        }
    }

    // Adds the normal form of an expression as a string, after a space where a text stands before it.
    fn add_string(&mut self, any: bool, e: ExpressionParts, h: &[u8])
        ensures { Adding self.old (pick any (text " ") [] ++ source_text (expression_by e h.now)) self.new }
    {
        self.add_separator(any, b" ");
        self.add_byte(b'"');
        self.add_expression(e, h);
        self.add_byte(b'"');
    }

    // Adds the name of a feature and `=`, and a separator before them where a member stands before.
    fn add_key(&mut self, any: bool, n: u32)
        ensures { Adding self.old (pick any (text ", ") [] ++ (name_of n ++ text "=")) self.new }
    {
        self.add_separator(any, b", ");
        self.add(features::name_of(n));
        self.add_byte(b'=');
    }
}

// The index of a list keeps the hashes and places of so many expressions, more than a header within the limit has: the shortest, `"http:"` and a space, takes eight bytes.
const INDEXED: usize = TEXT_BYTES / 8;

// The hashes of the normal forms of a list's expressions, and their places: two arrays, since sixteen hashes are compared at a time.
#[derive(Drop)]
struct Index {
    hashes: [u16; INDEXED],
    places: [u16; INDEXED],
}

impl Index {
    // Keeps the hash and the place of an expression, by its number, where there is room.
    fn keep(&mut self, i: usize, x: u16, p: u16)
        ensures { (self.new.hashes ≡ set self.old.hashes i x) × (self.new.places ≡ set self.old.places i p) }
    {
        if i < INDEXED {
            self.hashes[i] = x;
            self.places[i] = p;
        }
    }

    // Whether one of so many expressions of a list has the normal form of another, whose hash is `x`: what stands before the first of that hash isn't compared.
    fn lists(
        &self,
        d: &[u8],
        first: usize,
        count: usize,
        x: u16,
        e: ExpressionParts,
        h: &[u8],
    ) -> bool
        requires { Indexed d.now first count self.now × (x ≡ hash_of (normal (expression_by e h.now))) }
        ensures { result ≡ among (normal (expression_by e h.now)) (map normal (expressions_from count (drop first d.now))) }
    {
        if INDEXED < count {
            return seen(d, first, count, e, h);
        }
        let j = hashes::first_place(&self.hashes[..count], x);
        if count <= j {
            return false;
        }
        seen(d, usize::from(self.places[j]), count - j, e, h)
    }
}

// Whether one of so many expressions from a place on has the normal form of another.
fn seen(d: &[u8], first: usize, count: usize, e: ExpressionParts, h: &[u8]) -> bool
    ensures { result ≡ among (normal (expression_by e h.now)) (map normal (expressions_from count (drop first d.now))) }
{
    let mut list = Expressions {
        bytes: d,
        at: first,
        count,
    };
    list.any(|(parts, host)| origins::same_parts(e, h, parts, host))
}

// Adds an expression, which stands at the place `p`, unless one of so many before it has its normal form; and puts it into the index. Answers whether a text stands before the next one.
fn add_source(
    form: &mut Text,
    any: bool,
    d: &[u8],
    first: usize,
    count: usize,
    index: &mut Index,
    p: usize,
    e: ExpressionParts,
    h: &[u8],
) -> bool
    requires { (p ≤ 65535) × Indexed d.now first count index.old }
    ensures { Spelling (text " ") form.old any (new_text (expressions_from count (drop first d.now)) (expression_by e h.now)) form.new result × (index.new.hashes ≡ set index.old.hashes count (hash_of (normal (expression_by e h.now)))) × (index.new.places ≡ set index.old.places count p) }
{
    let x = hashes::hash(e, h);
    let old = index.lists(d, first, count, x, e, h);
    index.keep(count, x, p as u16);
    if old {
        return any;
    }
    form.add_string(any, e, h);
    true
}

// Adds so many expressions from a place on, each once. The index starts anew: what stands in it doesn't matter. It walks by places, not by settled's iterator: the index keeps each place.
fn add_sources(form: &mut Text, any: bool, d: &[u8], first: usize, count: usize, index: &mut Index)
    requires { length d.now ≤ 65535 }
    ensures { Adding form.old (following any (text " ") (source_texts (expressions_from count (drop first d.now)))) form.new }
{
    let mut p = first;
    let mut any = any;
    for i in 0..count {
        let Some(e) = settled::expression_at(d, p) else {
            return;
        };
        any = add_source(form, any, d, first, i, index, p, e.parts, e.host.of(d));
        p = e.host.to;
    }
}

// Adds an allowlist without `*`, an inner list: `self` first.
fn add_list(form: &mut Text, d: &[u8], l: ListRange, index: &mut Index)
    requires { length d.now ≤ 65535 }
    ensures { Adding form.old (value_text (tidy_value (listed l.own false (expressions_from l.count (drop l.at d.now))))) form.new }
{
    form.add_byte(b'(');
    form.add_separator(l.own, b"self");
    add_sources(form, l.own, d, l.at, l.count, index);
    form.add_byte(b')');
}

// Adds the member of a feature, if it is declared. Answers whether a member stands before the next one.
fn add_member(form: &mut Text, any: bool, d: &[u8], n: u32, index: &mut Index) -> bool
    requires { length d.now ≤ 65535 }
    ensures { Spelling (text ", ") form.old any (map member_text (with_member n (declared_in d.now n) [])) form.new result }
{
    let Some(list) = settled::list_of(d, n) else {
        return any;
    };
    form.add_key(any, n);
    match list {
        ListFound::All => form.add_byte(b'*'),
        ListFound::Listed(l) => add_list(form, d, l, index),
    }
    true
}

// Adds what settled bytes declare, feature by feature.
fn fill(form: &mut Text, d: &[u8])
    requires { length d.now ≤ 65535 }
    ensures { Adding form.old (written (tidy_members (declared_in d.now))) form.new }
{
    let mut index = Index {
        hashes: [0; INDEXED],
        places: [0; INDEXED],
    };
    let mut any = false;
    for n in 0..features::COUNT as u32 {
        any = add_member(form, any, d, n, &mut index);
    }
}

// Tidies a header into a lent run.
pub fn tidy(s: &[u8], out: &mut [u8]) -> Result<usize, Refusal>
    ensures { IsTidied s.now out.old out.new result }
{
    let mut d = [0u8; HEAD + TEXT_BYTES];
    match settling::settle(s, &mut d) {
        Err(SettleError::TooLong) => Err(Refusal::TooLong), // the input
        Err(SettleError::NoRoom) => Err(Refusal::Small), // never: there is room for every header
        Ok(f) => {
            if f.malformed {
                return Err(Refusal::NotADictionary);
            }
            let mut form = Text {
                bytes: [0; TEXT_BYTES],
                len: 0,
            };
            fill(&mut form, &d);
            let Some(text) = form.whole() else {
                return Err(Refusal::TooLong); // the output
            };
            let room = out.len();
            if room < text.len() {
                return Err(Refusal::Small);
            }
            let to = writing::put(out, 0, text);
            Ok(to)
        }
    }
}
