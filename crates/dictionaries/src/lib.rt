// RFC 8941 dictionaries: their members one after the other, the last member of a key, and the items of an inner list one after the other.
#![tactic(auto)]

ghost use Rattle.std.specs.Prelude.{◌≡◌, ◌≤◌, ◌<◌, length, drop};
ghost use Rattle.ascii.specs.Places.{IsTurn};
ghost use Rattle.items.specs.Items.{Item};
ghost use Rattle.dictionaries.specs.Dictionaries.{inner_turn, list_of, lone_of, value_of, assigned_of, member_of, parted_by, members, bare_key};
ghost use Rattle.dictionaries.specs.Lookup.{is_some, IsPointed, IsLast};
ghost use Rattle.dictionaries.specs.Members.{IsNext};
ghost use Rattle.dictionaries.specs.Steps.{IsInnerItem, IsClosed, IsValue, IsMember, IsParted};

use ascii::{Blank, Repeated, Space, TextRange, Turn};
use items::{ItemFound, ItemKind, ItemRange};

// Where a member's value stands: an item; or an inner list, by the cursor of its first item.
#[derive(Clone, Copy)]
pub enum ValueRange {
    Item(ItemRange),
    List(usize),
}

// A member's value, and where its parameters stand.
#[derive(Clone, Copy)]
pub struct MemberValue {
    pub range: ValueRange,
    pub params: TextRange,
}

// A member: where its key stands, its value, and the next cursor.
#[derive(Clone, Copy)]
pub struct MemberAt {
    pub key: TextRange,
    pub value: MemberValue,
    pub next: usize,
}

// The text is not a dictionary.
#[derive(Clone, Copy)]
pub struct NotADictionary;

// An item of an inner list, which a space or ")" must follow.
fn inner_item(s: &[u8], at: usize) -> Option<ItemFound>
    requires { at ≤ length s.now }
    ensures { IsInnerItem s.now at result }
{
    let found = items::item(s, at)?;
    let b = ascii::byte(s, found.next);
    if (b == b' ') | (b == b')') {
        Some(found)
    } else {
        None
    }
}

// The items of an inner list, up to its end.
struct InnerItems;

impl Repeated for InnerItems {
    ghost Value = { Item };

    ghost turn_of = { inner_turn };

    fn turn(s: &[u8], at: usize) -> Option<Turn> {
        let i = ascii::run_end(s, at, Space);
        if ascii::byte(s, i) == b')' {
            return Some(Turn::Done(i + 1));
        }
        let q = inner_item(s, i)?.next;
        Some(Turn::More(q))
    }
}

// The item of an inner list at a cursor.
pub fn item_at(s: &[u8], cursor: usize) -> Option<ItemFound>
    ensures { IsPointed s.now cursor result }
{
    let i = ascii::run_end(s, cursor, Space);
    if ascii::byte(s, i) == b')' {
        return None;
    }
    inner_item(s, i)
}

// A value that ends at a place, and the parameters that stand there.
fn with_params(s: &[u8], range: ValueRange, at: usize) -> Option<MemberValue>
    requires { at ≤ length s.now }
    ensures { IsClosed s.now range at result }
{
    let to = items::params(s, at)?;
    Some(MemberValue {
        range,
        params: TextRange { from: at, to },
    })
}

// An inner list past its "(", and its parameters.
fn list_value(s: &[u8], at: usize) -> Option<MemberValue>
    requires { at ≤ length s.now }
    ensures { IsValue s.now at result (list_of (drop at s.now)) }
{
    let q = ascii::turns::<InnerItems>(s, at)?;
    with_params(s, ValueRange::List(at), q)
}

// An item and its parameters.
fn item_value(s: &[u8], at: usize) -> Option<MemberValue>
    requires { at ≤ length s.now }
    ensures { IsValue s.now at result (lone_of (drop at s.now)) }
{
    let found = items::bare_item(s, at)?;
    with_params(s, ValueRange::Item(found.range), found.next)
}

// The value past "=".
fn value(s: &[u8], at: usize) -> Option<MemberValue>
    requires { at ≤ length s.now }
    ensures { IsValue s.now at result (value_of (drop at s.now)) }
{
    if ascii::byte(s, at) == b'(' {
        return list_value(s, at + 1);
    }
    item_value(s, at)
}

// The boolean true, which no byte of the text says, and the parameters that stand past a key.
fn bare_key(s: &[u8], at: usize) -> Option<MemberValue>
    requires { at ≤ length s.now }
    ensures { IsValue s.now at result (bare_key (drop at s.now)) }
{
    let none = ItemRange {
        kind: ItemKind::Other,
        text: TextRange { from: at, to: at },
    };
    with_params(s, ValueRange::Item(none), at)
}

// The value past a key.
fn assigned(s: &[u8], at: usize) -> Option<MemberValue>
    requires { at ≤ length s.now }
    ensures { IsValue s.now at result (assigned_of (drop at s.now)) }
{
    if ascii::byte(s, at) == b'=' {
        return value(s, at + 1);
    }
    bare_key(s, at)
}

// The member at a place, and the place past it.
fn member_at(s: &[u8], at: usize) -> Option<MemberAt>
    requires { at ≤ length s.now }
    ensures { IsMember s.now at result (member_of (drop at s.now)) }
{
    let to = items::key(s, at)?;
    let value = assigned(s, to)?;
    Some(MemberAt {
        key: TextRange { from: at, to },
        value,
        next: value.params.to,
    })
}

// The place past what parts a member from the next: the end, or a comma and another member.
fn parted(s: &[u8], at: usize) -> Option<usize>
    requires { at ≤ length s.now }
    ensures { IsParted s.now at result (parted_by (drop at s.now)) }
{
    let e = ascii::run_end(s, at, Blank);
    if s.len() <= e {
        return Some(e);
    }
    if ascii::byte(s, e) != b',' {
        return None;
    }
    let q = ascii::run_end(s, e + 1, Blank);
    if s.len() <= q {
        return None; // a trailing comma
    }
    Some(q)
}

// The member at a cursor, 0 at the start of a text; `None` where none is left.
pub fn next_member(s: &[u8], cursor: usize) -> Result<Option<MemberAt>, NotADictionary>
    ensures { IsNext s.now cursor result }
{
    let i = ascii::run_end(s, cursor, Space);
    if s.len() <= i {
        return Ok(None);
    }
    let Some(m) = member_at(s, i) else {
        return Err(NotADictionary);
    };
    let Some(next) = parted(s, m.next) else {
        return Err(NotADictionary);
    };
    Ok(Some(MemberAt { next, ..m }))
}

// The value of the last member of a key.
pub fn member(s: &[u8], key: &[u8]) -> Result<Option<MemberValue>, NotADictionary>
    ensures { IsLast s.now key.now result }
{
    let mut cursor = 0;
    let mut newest = None;
    while let Some(m) = next_member(s, cursor)? {
        if ascii::same(m.key.of(s), key) {
            newest = Some(m.value);
        }
        cursor = m.next;
    }
    Ok(newest)
}

// Whether the text is a dictionary.
pub fn is_dictionary(s: &[u8]) -> bool
    ensures { result ≡ is_some (members s.now) }
{
    member(s, b"").is_ok()
}
