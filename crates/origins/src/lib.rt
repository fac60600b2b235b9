// Origin texts and source expressions: what a text says, and whether an expression admits an origin.
#![tactic(auto)]

ghost use Rattle.std.specs.Prelude.{◌≡◌, ℕ, ◌∷◌, ◌≤◌, ◌<◌, ◌-◌, ◌+◌, length, drop};
ghost use Rattle.std.specs.Prelude.{Some};
ghost use Rattle.ascii.specs.Bytes.{lower};
ghost use Rattle.ascii.specs.Texts.{every, lowered, each, same_by};
ghost use Rattle.ascii.specs.Places.{IsRun};
ghost use Rattle.origins.specs.Hosts.{labels, is_label, is_host};
ghost use Rattle.ascii.specs.Decimals.{leads_zero};
ghost use Rattle.origins.specs.Ports.{default_port, origin_port, port_part_of};
ghost use Rattle.origins.specs.Origins.{not_colon, scheme_text, scheme_slashes, past_scheme, starts_with, origin_of, tuple_of};
ghost use Rattle.origins.specs.Expressions.{scheme_source, starts_lowered, host_part_of, host_source_of, expression_of};
ghost use Rattle.origins.specs.Steps.{ended_at, IsHostEnd, IsScheme, port_number, host_as};
ghost use Rattle.origins.specs.Matching.{same_scheme, scheme_admits, ends_in, port_admits, admits_tuple, admits, same_tuple, same_origin};
ghost use Rattle.origins.specs.Answers.{origin_as, source_as, tuple_in, origin_in, host_in, expression_range, expression_in, expression_by, tuple_by, IsPortText};
ghost use Rattle.origins.specs.NormalForms.{is_dropped, normal_port, normal, same_host, same_port, same_expression};

use ascii::{Only, Outside, TextRange};
use limits::{HOST_BYTES, LAST_PORT, PORT_DIGITS};

#[derive(Clone, Copy, PartialEq, Eq)]
pub enum Scheme {
    Http,
    Https,
}

impl Scheme {
    pub fn default_port(self) -> u32
        ensures { result ≡ default_port self }
    {
        match self {
            Scheme::Http => 80,
            Scheme::Https => 443,
        }
    }

    // A scheme and its colon.
    pub fn text(self) -> &'static [u8]
        ensures { result.now ≡ scheme_text self }
    {
        match self {
            Scheme::Http => b"http:",
            Scheme::Https => b"https:",
        }
    }

    // A scheme and `://`.
    pub fn slashes(self) -> &'static [u8]
        ensures { result.now ≡ scheme_slashes self }
    {
        match self {
            Scheme::Http => b"http://",
            Scheme::Https => b"https://",
        }
    }
}

// A tuple origin by its parts, beside the text of its host.
#[derive(Clone, Copy, PartialEq, Eq)]
pub struct TupleParts {
    pub scheme: Scheme,
    pub port: u32,
}

// A tuple origin whose host is a range of a text.
#[derive(Clone, Copy)]
pub struct TupleRange {
    pub parts: TupleParts,
    pub host: TextRange,
}

// What an origin text says.
#[derive(Clone, Copy)]
pub enum OriginText {
    Empty,
    Null,
    Tuple(TupleRange),
}

// An origin that is asked about: a tuple, an opaque one by its number, or a fresh opaque one.
#[derive(Clone, Copy)]
pub enum OriginRange {
    Tuple(TupleRange),
    Opaque(u32),
    Fresh,
}

// What the host part of an expression says; an expression without one is a scheme alone.
#[derive(Clone, Copy, PartialEq, Eq)]
pub enum HostKind {
    // `*`
    Any,
    Exact,
    // `*.` and a host
    Subdomains,
}

#[derive(Clone, Copy, PartialEq, Eq)]
pub enum PortPart {
    Default,
    // `:*`
    Any,
    Number(u32),
}

// A source expression by its parts, beside the text of its host.
#[derive(Clone, Copy)]
pub struct ExpressionParts {
    pub scheme: Scheme,
    pub host: Option<HostKind>,
    pub port: PortPart,
}

// A source expression whose host, where it has one, is a range of a text.
#[derive(Clone, Copy)]
pub struct ExpressionRange {
    pub parts: ExpressionParts,
    pub host: TextRange,
}

// Whether every label of a text is good, its letters in lower case.
fn labels_good(h: &[u8]) -> bool
    ensures { result ≡ every is_label (labels (lowered h.now)) }
{
    let mut starts = true;
    for c in h {
        let b = ascii::lower(*c);
        if b == b'.' {
            if starts {
                return false;
            }
            starts = true;
        } else {
            if !ascii::is_label_byte(b) {
                return false;
            }
            starts = false;
        }
    }
    !starts
}

// Whether a text is a host, its letters in lower case.
fn is_host(h: &[u8]) -> bool
    ensures { result ≡ is_host (lowered h.now) }
{
    if h.is_empty() {
        return false;
    }
    if HOST_BYTES < h.len() {
        return false;
    }
    labels_good(h)
}

// A host that ends at a place; none where a label was to start there.
fn ended(i: usize, starts: bool) -> Option<usize>
    ensures { result ≡ ended_at i starts }
{
    (!starts).then_some(i)
}

// Where the host ends that starts at a place: at a colon or with the text, if every label up to there is good. Both are found in one pass.
fn host_end(s: &[u8], from: usize) -> Option<usize>
    requires { from ≤ length s.now }
    ensures { IsHostEnd s.now from result }
{
    let mut starts = true;
    for i in from..s.len() {
        let b = s[i];
        if ascii::is_label_byte(b) {
            starts = false;
        } else {
            if b == b':' {
                return ended(i, starts);
            }
            if b != b'.' {
                return None;
            }
            if starts {
                return None;
            }
            starts = true;
        }
    }
    ended(s.len(), starts)
}

// One to five digits, read in decimal, worth at most 65,535.
fn number(d: &[u8]) -> Option<u32>
    ensures { result ≡ port_number d.now }
{
    if PORT_DIGITS < d.len() {
        return None;
    }
    ascii::decimal(d, LAST_PORT)
}

pub fn leads_zero(d: &[u8]) -> bool
    ensures { result ≡ leads_zero d.now }
{
    d.len() > 1 && d[0] == b'0'
}

// The port of an origin text, from what follows its host.
fn origin_port(p: &[u8], k: Scheme) -> Option<u32>
    ensures { result ≡ origin_port k p.now }
{
    if p.is_empty() {
        return Some(k.default_port());
    }
    let d = &p[1..];
    if leads_zero(d) {
        return None;
    }
    let n = number(d)?;
    if n == k.default_port() { None } else { Some(n) }
}

// How long a scheme and `://` are: the length of `Scheme::slashes`, whose contract twelve answers rest on.
fn slashes_length(k: Scheme) -> usize
    ensures { result ≡ length (scheme_slashes k) }
{
    k.slashes().len()
}

// A tuple origin, past its scheme and `://`.
fn tuple(s: &[u8], k: Scheme) -> Option<OriginText>
    requires { length (scheme_slashes k) ≤ length s.now }
    ensures { result ≡ origin_as (tuple_of k (past_scheme k s.now)) }
{
    let from = slashes_length(k);
    let to = host_end(s, from)?;
    if HOST_BYTES < to - from {
        return None;
    }
    let port = origin_port(&s[to..], k)?;
    let parts = TupleParts { scheme: k, port };
    let host = TextRange { from, to };
    Some(OriginText::Tuple(TupleRange { parts, host }))
}

fn scheme_of(s: &[u8]) -> Option<Scheme>
    ensures { IsScheme s.now result }
{
    if s.starts_with(b"http://") {
        return Some(Scheme::Http);
    }
    if s.starts_with(b"https://") {
        return Some(Scheme::Https);
    }
    None
}

// What an origin text says.
pub fn origin_text(s: &[u8]) -> Option<OriginText>
    ensures { result ≡ origin_as (origin_of s.now) }
{
    if s.is_empty() {
        return Some(OriginText::Empty);
    }
    if ascii::same(s, b"null") {
        return Some(OriginText::Null);
    }
    let k = scheme_of(s)?;
    tuple(s, k)
}

// The port-part of an expression, from what follows its host part.
fn port_part(p: &[u8]) -> Option<PortPart>
    ensures { result ≡ port_part_of p.now }
{
    if p.is_empty() {
        return Some(PortPart::Default);
    }
    let d = &p[1..];
    if ascii::same(d, b"*") {
        return Some(PortPart::Any);
    }
    let n = number(d)?;
    Some(PortPart::Number(n))
}

// Whether a text, its letters in lower case, begins with another.
fn starts_lowered(s: &[u8], t: &[u8]) -> bool
    ensures { result ≡ starts_lowered t.now s.now }
{
    let n = ascii::place(s, t.len());
    ascii::same_lowered(&s[..n], t)
}

// The host part of an expression, in any case.
fn host_part(h: &[u8]) -> Option<HostKind>
    ensures { result ≡ host_as (host_part_of (lowered h.now)) }
{
    if ascii::same_lowered(h, b"*") {
        return Some(HostKind::Any);
    }
    if starts_lowered(h, b"*.") {
        if is_host(&h[2..]) {
            return Some(HostKind::Subdomains);
        }
        return None;
    }
    if is_host(h) {
        Some(HostKind::Exact)
    } else {
        None
    }
}

// A host-source, past its scheme and `://`.
fn host_source(s: &[u8], k: Scheme) -> Option<ExpressionRange>
    requires { length (scheme_slashes k) ≤ length s.now }
    ensures { result ≡ source_as (host_source_of k (past_scheme k s.now)) }
{
    let from = slashes_length(k);
    let to = ascii::run_end(s, from, Outside(Only(b':')));
    let port = port_part(&s[to..])?;
    let kind = host_part(&s[from..to])?;
    let host = match kind {
        HostKind::Any => TextRange { from: 0, to: 0 },
        HostKind::Exact => TextRange { from, to },
        HostKind::Subdomains => TextRange { from: from + 2, to },
    };
    let parts = ExpressionParts {
        scheme: k,
        host: Some(kind),
        port,
    };
    Some(ExpressionRange { parts, host })
}

// An expression that is a scheme alone.
fn scheme_source(k: Scheme) -> ExpressionRange
    ensures { result ≡ expression_range (scheme_source k) }
{
    let parts = ExpressionParts {
        scheme: k,
        host: None,
        port: PortPart::Default,
    };
    let host = TextRange { from: 0, to: 0 };
    ExpressionRange { parts, host }
}

// The expression that a text is, if any.
pub fn expression(s: &[u8]) -> Option<ExpressionRange>
    ensures { result ≡ source_as (expression_of s.now) }
{
    if ascii::same_lowered(s, b"http:") {
        return Some(scheme_source(Scheme::Http));
    }
    if ascii::same_lowered(s, b"https:") {
        return Some(scheme_source(Scheme::Https));
    }
    if starts_lowered(s, b"http://") {
        return host_source(s, Scheme::Http);
    }
    if starts_lowered(s, b"https://") {
        return host_source(s, Scheme::Https);
    }
    None
}

// How an expression's host is compared with an origin's.
trait HostCase {
    // a byte of the expression's host as it is compared
    ghost folded: { ℕ → ℕ };

    fn same(x: &[u8], h: &[u8]) -> bool
        ensures { result ≡ same_by folded x.now h.now };
}

// As it is: the expression's host is in lower case.
struct LowerCase;

impl HostCase for LowerCase {
    ghost folded = { λ b. b };

    fn same(x: &[u8], h: &[u8]) -> bool {
        ascii::same(x, h)
    }
}

// With its letters in lower case.
struct AnyCase;

impl HostCase for AnyCase {
    ghost folded = { lower };

    fn same(x: &[u8], h: &[u8]) -> bool {
        ascii::same_lowered(x, h)
    }
}

// Whether a host ends in a dot and `x`, with at least one byte before them.
fn is_subdomain<C: HostCase>(x: &[u8], h: &[u8]) -> bool
    ensures { result ≡ ends_in (46 ∷ each C.folded x.now) h.now }
{
    let n = x.len();
    let m = h.len();
    if m <= n {
        return false;
    }
    let dot = m - n - 1;
    if dot == 0 {
        return false;
    }
    if h[dot] != b'.' {
        return false;
    }
    C::same(x, &h[dot + 1..])
}

// Whether an expression's scheme admits an origin's.
fn scheme_admits(k: Scheme, j: Scheme) -> bool
    ensures { result ≡ scheme_admits k j }
{
    match k {
        Scheme::Http => true,
        Scheme::Https => k == j,
    }
}

// Whether a port-part admits the port of an origin; `j`: the origin's scheme.
fn port_admits(p: PortPart, j: Scheme, n: u32) -> bool
    ensures { result ≡ port_admits p j n }
{
    match p {
        PortPart::Default => n == j.default_port(),
        PortPart::Any => true,
        PortPart::Number(m) => n == m,
    }
}

// Whether an expression with the host `x` admits an origin with the host `h`.
fn parts_match<C: HostCase>(e: ExpressionParts, x: &[u8], o: TupleParts, h: &[u8]) -> bool
    ensures { result ≡ admits_tuple (expression_by e (each C.folded x.now)) (tuple_by o h.now) }
{
    if !scheme_admits(e.scheme, o.scheme) {
        return false;
    }
    let Some(kind) = e.host else {
        return true;
    };
    match kind {
        HostKind::Any => port_admits(e.port, o.scheme, o.port),
        HostKind::Exact => {
            if C::same(x, h) {
                port_admits(e.port, o.scheme, o.port)
            } else {
                false
            }
        }
        HostKind::Subdomains => {
            let beneath = is_subdomain::<C>(x, h);
            if beneath {
                port_admits(e.port, o.scheme, o.port)
            } else {
                false
            }
        }
    }
}

// Whether an expression with the host `x`, in lower case, admits an origin with the host `h`.
pub fn parts_admit(e: ExpressionParts, x: &[u8], o: TupleParts, h: &[u8]) -> bool
    ensures { result ≡ admits_tuple (expression_by e x.now) (tuple_by o h.now) }
{
    parts_match::<LowerCase>(e, x, o, h)
}

fn admits_tuple(s: &[u8], e: ExpressionRange, t: &[u8], o: TupleRange) -> bool
    ensures { result ≡ admits_tuple (expression_in s.now e) (tuple_in t.now o) }
{
    parts_match::<AnyCase>(e.parts, e.host.of(s), o.parts, o.host.of(t))
}

// Whether an expression of one text admits an origin of another.
pub fn admits(s: &[u8], e: ExpressionRange, t: &[u8], o: OriginRange) -> bool
    ensures { result ≡ admits (expression_in s.now e) (origin_in t.now o) }
{
    match o {
        OriginRange::Tuple(r) => admits_tuple(s, e, t, r),
        OriginRange::Opaque(_) => false,
        OriginRange::Fresh => false,
    }
}

fn same_tuple(s: &[u8], a: TupleRange, t: &[u8], b: TupleRange) -> bool
    ensures { result ≡ same_tuple (tuple_in s.now a) (tuple_in t.now b) }
{
    a.parts == b.parts && ascii::same(a.host.of(s), b.host.of(t))
}

// Whether an origin of one text is the same as an origin of another.
pub fn same_origin(s: &[u8], a: OriginRange, t: &[u8], b: OriginRange) -> bool
    ensures { result ≡ same_origin (origin_in s.now a) (origin_in t.now b) }
{
    match (a, b) {
        (OriginRange::Tuple(x), OriginRange::Tuple(y)) => same_tuple(s, x, t, y),
        (OriginRange::Opaque(m), OriginRange::Opaque(n)) => m == n,
        _ => false,
    }
}

// Whether a port after a scheme is dropped in the normal form.
fn is_dropped(k: Scheme, n: u32) -> bool
    ensures { result ≡ is_dropped k n }
{
    match k {
        Scheme::Http => false, // https is admitted too, and has another default port
        Scheme::Https => n == k.default_port(),
    }
}

// The port-part of an expression's normal form.
pub fn normal_port(k: Scheme, p: PortPart) -> PortPart
    ensures { result ≡ normal_port k p }
{
    match p {
        PortPart::Number(n) => {
            if is_dropped(k, n) {
                PortPart::Default
            } else {
                p
            }
        }
        _ => p,
    }
}

// A port in decimal: the bytes from `from` on; there is no heap.
#[derive(Clone, Copy)]
pub struct PortText {
    pub bytes: [u8; PORT_DIGITS],
    pub from: usize,
}

impl PortText {
    pub fn text(&self) -> &[u8]
        ensures { result.now ≡ drop self.now.from self.now.bytes }
    {
        self.bytes.get(self.from..).unwrap_or(&[])
    }
}

fn digit_byte(n: u32) -> u8
    requires { n < 10 }
    ensures { result ≡ 48 + n }
{
    b'0' + (n % 10) as u8
}

// A port in decimal, its last five digits.
pub fn port_text(n: u32) -> PortText
    ensures { IsPortText n result }
{
    let mut bytes = [b'0'; PORT_DIGITS];
    let mut left = n;
    for from in (0..PORT_DIGITS).rev() {
        bytes[from] = digit_byte(left % 10);
        if left < 10 {
            return PortText { bytes, from };
        }
        left /= 10;
    }
    PortText { bytes, from: 0 }
}

// Whether two hosts of one kind are the same.
fn same_hosts(kind: Option<HostKind>, x: &[u8], y: &[u8]) -> bool
    ensures { result ≡ same_host (host_in kind x.now) (host_in kind y.now) }
{
    let Some(named) = kind else {
        return true;
    };
    match named {
        HostKind::Any => true,
        HostKind::Exact => ascii::same(x, y),
        HostKind::Subdomains => ascii::same(x, y),
    }
}

// Whether two expressions, by their parts and beside the texts of their hosts, have the same normal form.
pub fn same_parts(e: ExpressionParts, x: &[u8], f: ExpressionParts, y: &[u8]) -> bool
    ensures { result ≡ same_expression (normal (expression_by e x.now)) (normal (expression_by f y.now)) }
{
    if e.host != f.host {
        return false;
    }
    if !same_hosts(e.host, x, y) {
        return false;
    }
    if e.scheme != f.scheme {
        return false;
    }
    normal_port(e.scheme, e.port) == normal_port(f.scheme, f.port)
}
