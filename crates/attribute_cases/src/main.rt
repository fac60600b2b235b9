// Cases of documents 01 and 02 (R-1, R-3) about frames. The container document stands at https://a.example.
// Each line of standard input is a case, its fields parted by `|`; it is written again with the answer after it. The first field
// has words: `container` asks the container about itself (header, feature), `grandchild` a frame's frame (the container's
// header, its own header, feature), `enabled` is for the number of the container's enabled features (header), `forecast` for a
// forecast (header, allow, sandbox, src). Else what is asked is the document that arrives (header, allow, sandbox, src, arriving
// origin, feature). `sandbox` and `allowfullscreen` say that the attribute stands, `sandboxed` that the container is sandboxed.
#![tactic(auto)]

use containers::{ContainerPolicy, DeclaredOrigin};
use decisions::{Decision, Framed};
use origins::{OriginRange, OriginText};
use std::io;

// So much of the input is read.
const LIST_BYTES: usize = 65_536;

fn put(rt: &impl Print, t: &[u8]) -> io::Result<()> {
    rt.write_all(t)
}

fn put_decision(rt: &impl Print, d: Decision) -> io::Result<()> {
    match d {
        Decision::Enabled => put(rt, b": Enabled\n"),
        Decision::Disabled => put(rt, b": Disabled\n"),
    }
}

fn put_number(rt: &impl Print, n: u32) -> io::Result<()> {
    put(rt, b": ")?;
    rt.print(n)?;
    put(rt, b"\n")
}

// The field of a number; a line has as many as it has, and empty ones after them.
fn field(line: &[u8], k: usize) -> &[u8] {
    line.split(|b| *b == b'|').nth(k).unwrap_or(&[])
}

// The origin that a text names; `null` is that of a document, opaque and named by a number.
fn origin(t: &[u8]) -> OriginRange {
    match origins::origin_text(t) {
        Some(OriginText::Empty) => OriginRange::Fresh,
        Some(OriginText::Null) => OriginRange::Opaque(2),
        Some(OriginText::Tuple(r)) => OriginRange::Tuple(r),
        None => OriginRange::Fresh,
    }
}

fn feature(word: &[u8]) -> u32 {
    features::feature_of(word).unwrap_or(17)
}

// The bytes that a header is settled into, at most.
const SETTLED_BYTES: usize = settled::HEAD + limits::TEXT_BYTES;

// What a header answers for a feature and an origin; `same`: it is the document's own.
fn admits(header: &[u8], n: u32, same: bool, t: &[u8], o: OriginRange) -> Option<bool> {
    let mut kept = [0u8; SETTLED_BYTES];
    match settling::settle(header, &mut kept) {
        Ok(_) => settled::admits(&kept, n, same, t, o),
        Err(_) => None,
    }
}

// An origin that arrives in a frame, and whether it is the container's and the declared one.
#[derive(Clone, Copy)]
struct Arrival {
    origin: OriginRange,
    container_same: bool,
    declared_same: bool,
}

// What a frame's attributes give a feature.
fn container_policy(marks: &[u8], allow: &[u8], sandbox: &[u8], n: u32) -> Option<ContainerPolicy> {
    let full = pieces::has_keyword(marks, b"allowfullscreen");
    let stands = pieces::has_keyword(marks, b"sandbox");
    let policies = containers::container_policies(allow, full, stands, sandbox);
    *policies.get(n as usize)?
}

// What a document at an origin inherits for a feature from the container.
fn inherits(
    header: &[u8],
    marks: &[u8],
    allow: &[u8],
    sandbox: &[u8],
    n: u32,
    t: &[u8],
    a: Arrival,
) -> Decision {
    let o = a.origin;
    let container = origin(b"https://a.example");
    let at_own = admits(header, n, true, b"https://a.example", container);
    let at_arriving = admits(header, n, a.container_same, t, o);
    let policy = container_policy(marks, allow, sandbox, n);
    let value_own = decisions::value(Decision::Enabled, at_own);
    let value_arriving = decisions::value(Decision::Enabled, at_arriving);
    let allowed = containers::policy_admits(allow, policy, a.container_same, a.declared_same, t, o);
    let default = features::default_of(n);
    decisions::inherited(Framed {
        value_own,
        value_arriving,
        allowed,
        default,
        same: a.container_same,
    })
}

// The declared origin of a frame.
fn declared(marks: &[u8], sandbox: &[u8], src: &[u8]) -> Option<DeclaredOrigin> {
    let above = pieces::has_keyword(marks, b"sandboxed");
    let stands = pieces::has_keyword(marks, b"sandbox");
    let sandboxed = containers::is_sandboxed(above, stands, sandbox);
    let said = origins::origin_text(src);
    containers::declared_origin(sandboxed, said)
}

fn is_container(t: &[u8], o: OriginRange) -> bool {
    let container = origin(b"https://a.example");
    origins::same_origin(b"https://a.example", container, t, o)
}

// The document that arrives, asked at its own origin; it has no header.
fn arrived(rt: &impl Print, line: &[u8], t: &[u8]) -> io::Result<()> {
    let src = field(line, 4);
    let n = feature(field(line, 6));
    let marks = field(line, 0);
    let sandbox = field(line, 3);
    let o = origin(t);
    let container_same = is_container(t, o);
    let declared_same = match declared(marks, sandbox, src) {
        Some(DeclaredOrigin::Fresh) => false,
        Some(DeclaredOrigin::Container) => container_same,
        Some(DeclaredOrigin::Src(r)) => origins::same_origin(src, OriginRange::Tuple(r), t, o),
        None => false,
    };
    let a = Arrival {
        origin: o,
        container_same,
        declared_same,
    };
    let inherited = inherits(field(line, 1), marks, field(line, 2), sandbox, n, t, a);
    let default = features::default_of(n);
    let decision = decisions::question(inherited, None, default, true);
    put_decision(rt, decision)
}

// An empty text is the container's origin.
fn arriving(rt: &impl Print, line: &[u8]) -> io::Result<()> {
    let t = field(line, 5);
    if t.is_empty() {
        return arrived(rt, line, b"https://a.example");
    }
    arrived(rt, line, t)
}

// The container, asked at its own origin.
fn asked(header: &[u8], n: u32) -> Decision {
    let o = origin(b"https://a.example");
    let admission = admits(header, n, true, b"https://a.example", o);
    let default = features::default_of(n);
    decisions::question(Decision::Enabled, admission, default, true)
}

// A frame of a frame, asked at its own origin; both are at https://b.example, and only the lower one has a header.
fn grandchild(header: &[u8], below: &[u8], n: u32) -> Decision {
    let o = origin(b"https://b.example");
    let a = Arrival {
        origin: o,
        container_same: false,
        declared_same: true,
    };
    let above = inherits(header, b"", b"", b"", n, b"https://b.example", a);
    let value = decisions::value(above, None);
    let default = features::default_of(n);
    let inherited = decisions::inherited(Framed {
        value_own: value,
        value_arriving: value,
        allowed: None,
        default,
        same: true,
    });
    let admission = admits(below, n, true, b"https://b.example", o);
    decisions::question(inherited, admission, default, true)
}

// The number of the features that a document at an origin would inherit.
fn inherited_mask(
    header: &[u8],
    marks: &[u8],
    allow: &[u8],
    sandbox: &[u8],
    t: &[u8],
    a: Arrival,
) -> u32 {
    decisions::mask_by(|n| inherits(header, marks, allow, sandbox, n, t, a))
}

// A frame's forecast.
fn forecast(rt: &impl Print, line: &[u8]) -> io::Result<()> {
    let header = field(line, 1);
    let allow = field(line, 2);
    let src = field(line, 4);
    let marks = field(line, 0);
    let sandbox = field(line, 3);
    match declared(marks, sandbox, src) {
        Some(DeclaredOrigin::Fresh) => {
            let a = Arrival {
                origin: OriginRange::Fresh,
                container_same: false,
                declared_same: false,
            };
            put_number(rt, inherited_mask(header, marks, allow, sandbox, b"", a))
        }
        Some(DeclaredOrigin::Container) => {
            let o = origin(b"https://a.example");
            let a = Arrival {
                origin: o,
                container_same: true,
                declared_same: true,
            };
            let mask = inherited_mask(header, marks, allow, sandbox, b"https://a.example", a);
            put_number(rt, mask)
        }
        Some(DeclaredOrigin::Src(r)) => {
            let o = OriginRange::Tuple(r);
            let container_same = is_container(src, o);
            let a = Arrival {
                origin: o,
                container_same,
                declared_same: true,
            };
            put_number(rt, inherited_mask(header, marks, allow, sandbox, src, a))
        }
        None => put(rt, b": no origin\n"),
    }
}

// The number of the container's enabled features.
fn enabled_mask(header: &[u8]) -> u32 {
    decisions::mask_by(|n| asked(header, n))
}

fn case(rt: &impl Print, line: &[u8]) -> io::Result<()> {
    let kind = field(line, 0);
    put(rt, line)?;
    if pieces::has_keyword(kind, b"container") {
        return put_decision(rt, asked(field(line, 1), feature(field(line, 2))));
    }
    if pieces::has_keyword(kind, b"grandchild") {
        let n = feature(field(line, 3));
        return put_decision(rt, grandchild(field(line, 1), field(line, 2), n));
    }
    if pieces::has_keyword(kind, b"enabled") {
        return put_number(rt, enabled_mask(field(line, 1)));
    }
    if pieces::has_keyword(kind, b"forecast") {
        return forecast(rt, line);
    }
    arriving(rt, line)
}

// Each line of a list is a case, and ends in a line feed.
fn cases(rt: &impl Print, list: &[u8]) -> io::Result<()> {
    for line in list.split_inclusive(|b| *b == b'\n') {
        case(rt, line.strip_suffix(b"\n").unwrap_or(line))?;
    }
    Ok(())
}

fn main(rt: HostRuntime) -> io::Result<()> {
    let mut list = [0u8; LIST_BYTES];
    let n = reading::read_full(&mut rt.stdin(), &mut list)?;
    cases(&rt, &list[..n])
}
