// A header settled in one pass into a document's bytes: a head, and the expressions of its lists.
#![tactic(auto)]

ghost use Rattle.std.specs.Prelude.{◌≡◌, [], ◌∷◌, map, true, ◌+◌, ◌*◌, ◌/◌, ◌%◌, ◌≤◌, ◌<◌, length};
ghost use Rattle.std.specs.Prelude.{Some};
ghost use Rattle.limits.specs.Limits.{text_bytes};
ghost use Rattle.ascii.specs.Texts.{lowered, part_in};
ghost use Rattle.origins.specs.Answers.{expression_in};
ghost use Rattle.features.specs.Features.{feature_of, feature_count};
ghost use Rattle.items.specs.Found.{item_in};
ghost use Rattle.dictionaries.specs.Dictionaries.{members};
ghost use Rattle.dictionaries.specs.Lookup.{items_from, value_in, is_some};
ghost use Rattle.allowlists.specs.Allowlists.{with_source, sources_of};
ghost use Rattle.declarations.specs.Declarations.{item_meaning};
ghost use Rattle.settled.specs.Settled.{head_bytes};
ghost use Rattle.settling.specs.Writing.{scheme_number, host_number, host_text, port_number, port_value, expression_bytes, expressions_bytes, value_sources, entry_text, empty_document};
ghost use Rattle.settling.specs.Promises.{IsSettled};
ghost use Rattle.settling.specs.Steps.{Packable, Wrote, ItemPut, ListPut, list_mark, lone_mark, ValuePut, Holds, HasRoom, Settles, Cleared, MembersSettled};

use allowlists::MeaningRange;
use dictionaries::{MemberAt, MemberValue, ValueRange};
use items::ItemRange;
use limits::TEXT_BYTES;
use origins::{ExpressionParts, ExpressionRange, HostKind, PortPart, Scheme};
use settled::{ENTRY, HEAD};

// A header that was settled: how many bytes it takes of the run, and whether it is malformed. Both count for every header: a malformed one has a head
// too.
#[derive(Clone, Copy)]
pub struct SettledHeader {
    pub to: usize,
    pub malformed: bool,
}

// Why a header was not settled.
#[derive(Clone, Copy, PartialEq, Eq)]
pub enum SettleError {
    // the header is over the limit
    TooLong,
    // the run is shorter than the head and the header together
    NoRoom,
}

// Expressions that were written: where they end, and how many they are.
#[derive(Clone, Copy)]
struct Written {
    to: usize,
    count: usize,
}

// The expressions of items, and whether the items had `*` and `self` among them.
#[derive(Clone, Copy)]
struct Listed {
    written: Written,
    all: bool,
    own: bool,
}

// The expressions of a member's value, and its mark.
#[derive(Clone, Copy)]
struct Kept {
    written: Written,
    mark: u8,
}

// Writes a text at a place; answers where it ends. It needs no test for room, as `writing: put` makes.
fn put(d: &mut [u8], at: usize, t: &[u8]) -> usize
    requires { at + length t.now ≤ length d.old }
    ensures { Wrote d.old at t.now d.new result }
{
    let to = at + t.len();
    d[at..to].copy_from_slice(t);
    to
}

// Writes a text at a place, in lower case: byte by byte, since the compiler makes a call of `memmove` of the library's copy between two parts of lent memory, which no archive needed before.
fn put_lowered(d: &mut [u8], at: usize, t: &[u8]) -> usize
    requires { at + length t.now ≤ length d.old }
    ensures { Wrote d.old at (lowered t.now) d.new result }
{
    for j in 0..t.len() {
        d[at + j] = ascii::lower(t[j]);
    }
    at + t.len()
}

// The parts of an expression as numbers of the settled form. No `From`: the types are those of origins, which knows no settled form.
fn scheme_number(k: Scheme) -> u8
    ensures { (result ≡ scheme_number k) × (result < 2) }
{
    match k {
        Scheme::Http => 0,
        Scheme::Https => 1,
    }
}

fn host_number(h: Option<HostKind>) -> u8
    ensures { (result ≡ host_number h) × (result < 4) }
{
    match h {
        None => 0,
        Some(HostKind::Any) => 1,
        Some(HostKind::Exact) => 2,
        Some(HostKind::Subdomains) => 3,
    }
}

fn port_number(p: PortPart) -> u8
    ensures { (result ≡ port_number p) × (result < 3) }
{
    match p {
        PortPart::Default => 0,
        PortPart::Any => 1,
        PortPart::Number(_) => 2,
    }
}

fn port_value(p: PortPart) -> u32
    ensures { result ≡ port_value p }
{
    match p {
        PortPart::Default | PortPart::Any => 0,
        PortPart::Number(n) => n,
    }
}

// The text of an expression's host, empty where it has none.
#[tactic(auto, unfolding(ascii::specs::Texts::each))]
fn host_of(x: &[u8], e: ExpressionRange) -> &[u8]
    ensures { lowered result.now ≡ host_text (expression_in x.now e).host }
{
    match e.parts.host {
        None | Some(HostKind::Any) => &[],
        Some(HostKind::Exact | HostKind::Subdomains) => e.host.of(x),
    }
}

// The kind of an expression, as a byte.
fn kind_of(e: ExpressionParts) -> u8
    ensures { result ≡ scheme_number e.scheme + 2 * host_number e.host + 8 * port_number e.port }
{
    scheme_number(e.scheme) + 2 * host_number(e.host) + 8 * port_number(e.port)
}

// Writes an expression of the text `x`.
fn put_expression(d: &mut [u8], at: usize, x: &[u8], e: ExpressionRange) -> usize
    requires { Packable (expression_in x.now e) × (at + length (expression_bytes (expression_in x.now e)) ≤ length d.old) }
    ensures { Wrote d.old at (expression_bytes (expression_in x.now e)) d.new result }
{
    let host = host_of(x, e);
    let [low, high] = (port_value(e.parts.port) as u16).to_le_bytes();
    let o = put(d, at, &[kind_of(e.parts), host.len() as u8, low, high]);
    put_lowered(d, o, host)
}

// Writes an item's expression, if it is one.
fn put_item(s: &[u8], item: ItemRange, d: &mut [u8], n: Listed) -> Listed
    requires { (n.written.to + length (expressions_bytes (with_source (item_meaning (item_in s.now item)) [])) ≤ length d.old) × (n.written.count ≤ n.written.to) }
    ensures { ItemPut (item_meaning (item_in s.now item)) d.old n d.new result }
{
    let Some(m) = declarations::meaning(s, item) else {
        return n;
    };
    match m {
        MeaningRange::All => Listed { all: true, ..n },
        MeaningRange::SelfOrigin => Listed { own: true, ..n },
        MeaningRange::SrcOrigin => n,
        MeaningRange::Source(e) => {
            let to = put_expression(d, n.written.to, item.text.of(s), e);
            let count = n.written.count + 1;
            Listed {
                written: Written { to, count },
                ..n
            }
        }
    }
}

// Writes the expressions of an inner list.
fn put_list(s: &[u8], first: usize, d: &mut [u8], at: usize) -> Listed
    requires { at + length (expressions_bytes (sources_of (map item_meaning (items_from s.now first)))) ≤ length d.old }
    ensures { ListPut (map item_meaning (items_from s.now first)) d.old at d.new result }
{
    let mut c = first;
    let mut n = Listed {
        written: Written { to: at, count: 0 },
        all: false,
        own: false,
    };
    while let Some(found) = dictionaries::item_at(s, c) {
        n = put_item(s, found.range, d, n);
        c = found.next;
    }
    n
}

// The mark of a list, by whether it has `*` and `self`.
fn list_mark(all: bool, own: bool) -> u8
    ensures { result ≡ list_mark all own }
{
    if all {
        1
    } else if own {
        3
    } else {
        2
    }
}

// The mark of a lone item: 0 where it says nothing.
fn lone_mark(n: Listed) -> u8
    ensures { result ≡ lone_mark n.all n.own n.written.count }
{
    if !n.all & !n.own & (n.written.count == 0) {
        0
    } else {
        list_mark(n.all, n.own)
    }
}

// Writes the expressions of a member's value.
fn put_value(s: &[u8], v: MemberValue, d: &mut [u8], at: usize) -> Kept
    requires { at + length (expressions_bytes (value_sources (value_in s.now v))) ≤ length d.old }
    ensures { ValuePut (value_in s.now v) d.old at d.new result }
{
    match v.range {
        ValueRange::Item(item) => {
            let none = Listed {
                written: Written { to: at, count: 0 },
                all: false,
                own: false,
            };
            let n = put_item(s, item, d, none);
            Kept {
                written: n.written,
                mark: lone_mark(n),
            }
        }
        ValueRange::List(first) => {
            let n = put_list(s, first, d, at);
            Kept {
                written: n.written,
                mark: list_mark(n.all, n.own),
            }
        }
    }
}

// Writes an entry of the head at a place.
fn put_entry(d: &mut [u8], i: usize, mark: u8, start: usize, count: usize) -> usize
    requires { (i + 5 ≤ length d.old) × (start ≤ 65535) × (count ≤ 65535) }
    ensures { Wrote d.old i (entry_text mark start count) d.new result }
{
    let [start_low, start_high] = (start as u16).to_le_bytes();
    let [count_low, count_high] = (count as u16).to_le_bytes();
    put(d, i, &[mark, start_low, start_high, count_low, count_high])
}

// Settles a member's value as what a feature has declared, past the bytes that are taken so far; answers how many are taken then.
fn settle_feature(s: &[u8], v: MemberValue, d: &mut [u8], w: usize, n: u32) -> usize
    requires { HasRoom (value_in s.now v) d.old w × (n < feature_count) }
    ensures { Settles (Some n) (value_in s.now v) d.old w d.new result }
{
    let kept = put_value(s, v, &mut d[HEAD..], w);
    let i = ENTRY * (n as usize);
    put_entry(d, i, kept.mark, w, kept.written.count);
    kept.written.to
}

// Settles a member, by its key.
fn settle_member(s: &[u8], m: MemberAt, d: &mut [u8], w: usize) -> usize
    requires { HasRoom (value_in s.now m.value) d.old w }
    ensures { Settles (feature_of (part_in s.now m.key)) (value_in s.now m.value) d.old w d.new result }
{
    match features::feature_of(m.key.of(s)) {
        Some(n) => settle_feature(s, m.value, d, w, n),
        None => w,
    }
}

// Clears the head.
fn clear(d: &mut [u8])
    requires { head_bytes ≤ length d.old }
    ensures { Cleared d.old d.new }
{
    d[..HEAD].fill(0);
}

// Settles the members of a dictionary into a run whose head is clear; answers how many bytes past the head are taken.
fn settle_members(s: &[u8], d: &mut [u8]) -> usize
    requires { (head_bytes + length s.now ≤ length d.old) × (length s.now ≤ text_bytes) × Holds empty_document d.old d.old 0 × (is_some (members s.now) ≡ true) }
    ensures { MembersSettled s.now d.old d.new result }
{
    let mut c = 0;
    let mut w = 0;
    while let Some(m) = dictionaries::next_member(s, c).unwrap() {
        w = settle_member(s, m, d, w);
        c = m.next;
    }
    w
}

// Settles a header in one pass into the front of a lent run; of a malformed header the head alone is written.
pub fn settle(s: &[u8], run: &mut [u8]) -> Result<SettledHeader, SettleError>
    ensures { IsSettled s.now run.old run.new result }
{
    if TEXT_BYTES < s.len() {
        return Err(SettleError::TooLong);
    }
    if run.len() < HEAD + s.len() {
        return Err(SettleError::NoRoom);
    }
    clear(run);
    if !dictionaries::is_dictionary(s) {
        return Ok(SettledHeader {
            to: HEAD,
            malformed: true,
        });
    }
    let w = settle_members(s, run);
    Ok(SettledHeader {
        to: HEAD + w,
        malformed: false,
    })
}
