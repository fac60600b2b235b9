// The examples of RFC 8941's grammar and document 01's header rows, read by the library. Each line of standard input is a case.
#![tactic(auto)]

use ascii::TextRange;
use dictionaries::{NotADictionary, ValueRange};
use items::{ItemKind, ItemRange};
use origins::{OriginRange, OriginText};
use settling::SettleError;
use std::io;

// So much of the input is read.
const LIST_BYTES: usize = 4096;

fn put(rt: &impl Print, s: &[u8]) -> io::Result<()> {
    rt.write_all(s)
}

// Whether a text is a dictionary.
fn tell(rt: &impl Print, s: &[u8]) -> io::Result<()> {
    if dictionaries::is_dictionary(s) {
        put(rt, b"yes ")?;
    } else {
        put(rt, b"no ")?;
    }
    put(rt, s)?;
    put(rt, b"\n")
}

fn show_item(rt: &impl Print, s: &[u8], item: ItemRange) -> io::Result<()> {
    match item.kind {
        ItemKind::Token => put(rt, b"token ")?,
        ItemKind::String => put(rt, b"string ")?,
        ItemKind::Other => put(rt, b"other")?,
    }
    put(rt, item.text.of(s))
}

fn show_list(rt: &impl Print, s: &[u8], first: usize) -> io::Result<()> {
    put(rt, b"list")?;
    let mut at = first;
    while let Some(found) = dictionaries::item_at(s, at) {
        put(rt, b"; ")?;
        show_item(rt, s, found.range)?;
        at = found.next;
    }
    Ok(())
}

fn show_params(rt: &impl Print, s: &[u8], range: TextRange) -> io::Result<()> {
    if range.from < range.to {
        put(rt, b"; parameters ")?;
        put(rt, range.of(s))?;
    }
    Ok(())
}

// The last member of a key.
fn show(rt: &impl Print, s: &[u8], key: &[u8]) -> io::Result<()> {
    put(rt, key)?;
    put(rt, b" in ")?;
    put(rt, s)?;
    put(rt, b": ")?;
    match dictionaries::member(s, key) {
        Err(NotADictionary) => put(rt, b"malformed")?,
        Ok(None) => put(rt, b"absent")?,
        Ok(Some(value)) => {
            match value.range {
                ValueRange::Item(item) => show_item(rt, s, item)?,
                ValueRange::List(first) => show_list(rt, s, first)?,
            }
            show_params(rt, s, value.params)?;
        }
    }
    put(rt, b"\n")
}

// Whether the list that settled bytes say for camera, feature 0, admits an origin, for a document at https://a.example.
fn ask(rt: &impl Print, d: &[u8], text: &[u8], o: OriginRange) -> io::Result<()> {
    let same = ascii::same(text, b"https://a.example");
    match settled::admits(d, 0, same, text, o) {
        Some(true) => put(rt, b"yes"),
        Some(false) => put(rt, b"no"),
        None => put(rt, b"undeclared"),
    }
}

fn ask_text(rt: &impl Print, d: &[u8], text: &[u8]) -> io::Result<()> {
    match origins::origin_text(text) {
        Some(OriginText::Tuple(o)) => ask(rt, d, text, OriginRange::Tuple(o)),
        Some(OriginText::Null) => ask(rt, d, text, OriginRange::Fresh),
        Some(OriginText::Empty) => put(rt, b"empty"),
        None => put(rt, b"no origin"),
    }
}

fn ask_all(rt: &impl Print, d: &[u8]) -> io::Result<()> {
    put(rt, b": own ")?;
    ask_text(rt, d, b"https://a.example")?;
    put(rt, b", other ")?;
    ask_text(rt, d, b"https://b.example")?;
    put(rt, b", opaque ")?;
    ask_text(rt, d, b"null")?;
    put(rt, b"\n")
}

fn show_camera(rt: &impl Print, d: &[u8], malformed: bool) -> io::Result<()> {
    if malformed {
        return put(rt, b": malformed\n");
    }
    match settled::list_of(d, 0) {
        Some(_) => ask_all(rt, d),
        None => put(rt, b": undeclared\n"),
    }
}

// What a header declares for camera, once it is settled.
fn camera(rt: &impl Print, s: &[u8]) -> io::Result<()> {
    put(rt, b"camera of ")?;
    put(rt, s)?;
    let mut d = [0u8; 200];
    match settling::settle(s, &mut d) {
        Ok(f) => show_camera(rt, &d, f.malformed),
        Err(SettleError::TooLong) => put(rt, b": too long\n"),
        Err(SettleError::NoRoom) => put(rt, b": no room\n"),
    }
}

// What stands before the first `|` of a text, and past it.
fn parted(t: &[u8]) -> (&[u8], &[u8]) {
    let mut parts = t.splitn(2, |b| *b == b'|');
    let front = parts.next().unwrap_or(&[]);
    (front, parts.next().unwrap_or(&[]))
}

// A kind is told by its first letter: `is` a text a dictionary, the last member `of` a key in a text, what a header declares for `camera`.
fn case(rt: &impl Print, line: &[u8]) -> io::Result<()> {
    let (kind, rest) = parted(line);
    match kind.first() {
        Some(b'i') => tell(rt, rest),
        Some(b'o') => {
            let (key, text) = parted(rest);
            show(rt, text, key)
        }
        Some(b'c') => camera(rt, rest),
        _ => put(rt, b"no case\n"),
    }
}

// Each line of a list is a case, and ends in a line feed.
fn cases(rt: &impl Print, list: &[u8]) -> io::Result<()> {
    for line in list.split_inclusive(|b| *b == b'\n') {
        case(rt, line.strip_suffix(b"\n").unwrap_or(line))?;
    }
    Ok(())
}

fn main(rt: HostRuntime) -> io::Result<()> {
    let mut list = [0u8; LIST_BYTES];
    let n = reading::read_full(&mut rt.stdin(), &mut list)?;
    cases(&rt, &list[..n])?;
    tell(&rt, b"a=1\n") // no line says it
}
