// Cases of document 01 and of 02's R-2 and R-3: what origin texts say, what expressions are read as, which
// origins they admit, which origins are the same, the features, and which name is left to compare
// with a word. Each line of standard input is a case: its kind and one or two texts in quotes. It is
// written again with the answer after it.
#![tactic(auto)]

use features::DefaultAllowlist;
use origins::{ExpressionRange, HostKind, OriginRange, OriginText, PortPart, Scheme, TupleRange};
use std::io;

// Texts up to this length are written whole.
const SHOWN: usize = 60;

// So much of the input is read.
const LIST_BYTES: usize = 65_536;

fn put(rt: &impl Print, t: &[u8]) -> io::Result<()> {
    rt.write_all(t)
}

// A text in quotes, with a word before it.
fn put_text(rt: &impl Print, word: &[u8], t: &[u8]) -> io::Result<()> {
    put(rt, word)?;
    put(rt, b" \"")?;
    if SHOWN < t.len() {
        put(rt, ascii::part(t, 0, 12))?;
        put(rt, b"..\" of ")?;
        rt.print(t.len())?;
        put(rt, b" bytes")
    } else {
        put(rt, t)?;
        put(rt, b"\"")
    }
}

fn put_answer(rt: &impl Print, yes: bool) -> io::Result<()> {
    if yes {
        put(rt, b": yes\n")
    } else {
        put(rt, b": no\n")
    }
}

fn put_scheme(rt: &impl Print, k: Scheme) -> io::Result<()> {
    match k {
        Scheme::Http => put(rt, b": http"),
        Scheme::Https => put(rt, b": https"),
    }
}

fn put_port(rt: &impl Print, p: PortPart) -> io::Result<()> {
    match p {
        PortPart::Default => put(rt, b", default port\n"),
        PortPart::Any => put(rt, b", any port\n"),
        PortPart::Number(n) => {
            put(rt, b", port ")?;
            rt.print(n)?;
            put(rt, b"\n")
        }
    }
}

fn put_tuple(rt: &impl Print, s: &[u8], r: TupleRange) -> io::Result<()> {
    put_scheme(rt, r.parts.scheme)?;
    put_text(rt, b", host", r.host.of(s))?;
    put_port(rt, PortPart::Number(r.parts.port))
}

// What an origin text says.
fn origin(rt: &impl Print, s: &[u8]) -> io::Result<()> {
    put_text(rt, b"origin", s)?;
    match origins::origin_text(s) {
        Some(OriginText::Empty) => put(rt, b": empty\n"),
        Some(OriginText::Null) => put(rt, b": null\n"),
        Some(OriginText::Tuple(r)) => put_tuple(rt, s, r),
        None => put(rt, b": no origin\n"),
    }
}

fn put_expression(rt: &impl Print, s: &[u8], e: ExpressionRange) -> io::Result<()> {
    let p = e.parts.port;
    let h = e.host.of(s);
    put_scheme(rt, e.parts.scheme)?;
    let Some(kind) = e.parts.host else {
        return put(rt, b" alone\n");
    };
    match kind {
        HostKind::Any => {
            put(rt, b", any host")?;
            put_port(rt, p)
        }
        HostKind::Exact => {
            put_text(rt, b", host", h)?;
            put_port(rt, p)
        }
        HostKind::Subdomains => {
            put_text(rt, b", subdomains of", h)?;
            put_port(rt, p)
        }
    }
}

// What an expression is read as.
fn expression(rt: &impl Print, s: &[u8]) -> io::Result<()> {
    put_text(rt, b"expression", s)?;
    match origins::expression(s) {
        Some(e) => put_expression(rt, s, e),
        None => put(rt, b": none\n"),
    }
}

// The origin of a text that is asked about: `null` is a fresh one.
fn asked(t: &[u8]) -> Option<OriginRange> {
    match origins::origin_text(t)? {
        OriginText::Empty => None,
        OriginText::Null => Some(OriginRange::Fresh),
        OriginText::Tuple(r) => Some(OriginRange::Tuple(r)),
    }
}

fn put_admits(rt: &impl Print, s: &[u8], t: &[u8], o: OriginRange) -> io::Result<()> {
    match origins::expression(s) {
        Some(e) => put_answer(rt, origins::admits(s, e, t, o)),
        None => put(rt, b": no expression\n"),
    }
}

// Whether an expression admits the origin of a text.
fn admits(rt: &impl Print, s: &[u8], t: &[u8]) -> io::Result<()> {
    put_text(rt, b"admits", s)?;
    put_text(rt, b"", t)?;
    match asked(t) {
        Some(o) => put_admits(rt, s, t, o),
        None => put(rt, b": no origin\n"),
    }
}

// Whether the origins of two texts are the same.
fn same(rt: &impl Print, s: &[u8], t: &[u8]) -> io::Result<()> {
    put_text(rt, b"same", s)?;
    put_text(rt, b"", t)?;
    match (asked(s), asked(t)) {
        (Some(a), Some(b)) => put_answer(rt, origins::same_origin(s, a, t, b)),
        _ => put(rt, b": no origin\n"),
    }
}

// The name and the default list of a number.
fn number(rt: &impl Print, n: u32) -> io::Result<()> {
    put(rt, b": number ")?;
    rt.print(n)?;
    put_text(rt, b", name", features::name_of(n))?;
    match features::default_of(n) {
        Some(DefaultAllowlist::All) => put(rt, b", default *\n"),
        Some(DefaultAllowlist::SelfOnly) => put(rt, b", default self\n"),
        None => put(rt, b", no such feature\n"),
    }
}

// The feature of a name.
fn feature(rt: &impl Print, word: &[u8]) -> io::Result<()> {
    put_text(rt, b"feature", word)?;
    match features::feature_of(word) {
        Some(n) => number(rt, n),
        None => put(rt, b": unknown\n"),
    }
}

// The name that is left to compare with a word.
fn left(rt: &impl Print, word: &[u8]) -> io::Result<()> {
    put_text(rt, b"left", word)?;
    match features::left_to_compare(word) {
        Some(n) => {
            put(rt, b": ")?;
            rt.print(n)?;
            put(rt, b"\n")
        }
        None => put(rt, b": nothing\n"),
    }
}

// A kind is told by its first letter.
fn case(rt: &impl Print, line: &[u8]) -> io::Result<()> {
    let mut parts = line.split(|b| *b == b'"');
    let s = parts.nth(1).unwrap_or(&[]); // the first text in quotes
    let t = parts.nth(1).unwrap_or(&[]); // and the second
    match ascii::byte(line, 0) {
        b'o' => origin(rt, s),
        b'e' => expression(rt, s),
        b'a' => admits(rt, s, t),
        b's' => same(rt, s, t),
        b'f' => feature(rt, s),
        b'l' => left(rt, s),
        _ => put(rt, b"no case\n"),
    }
}

// Each line of a list is a case, and ends in a line feed.
fn cases(rt: &impl Print, list: &[u8]) -> io::Result<()> {
    for line in list.split_inclusive(|b| *b == b'\n') {
        case(rt, line.strip_suffix(b"\n").unwrap_or(line))?;
    }
    Ok(())
}

// Opaque origins that documents have, and numbers of no feature: no text says them.
fn further_cases(rt: &impl Print) -> io::Result<()> {
    put(rt, b"opaque 1 and scheme https")?;
    put_admits(rt, b"https:", b"", OriginRange::Opaque(1))?;
    put(rt, b"opaque 1 and opaque 1")?;
    let one = origins::same_origin(b"", OriginRange::Opaque(1), b"", OriginRange::Opaque(1));
    put_answer(rt, one)?;
    put(rt, b"opaque 1 and opaque 2")?;
    let two = origins::same_origin(b"", OriginRange::Opaque(1), b"", OriginRange::Opaque(2));
    put_answer(rt, two)?;
    put(rt, b"no feature")?;
    number(rt, 17)?;
    put(rt, b"no feature")?;
    number(rt, 4_294_967_295)
}

fn main(rt: HostRuntime) -> io::Result<()> {
    let mut list = [0u8; LIST_BYTES];
    let n = reading::read_full(&mut rt.stdin(), &mut list)?;
    cases(&rt, &list[..n])?;
    further_cases(&rt)
}
