// A frame's attributes: allow, allowfullscreen and sandbox; the container policy and the declared origin.
#![tactic(auto)]

ghost use Rattle.std.specs.Prelude.{◌≡◌, ◌≤◌, ◌&&◌, eqb, length, take};
ghost use Rattle.origins.specs.Answers.{origin_in};
ghost use Rattle.allowlists.specs.Allowlists.{some_admits};
ghost use Rattle.containers.specs.Policies.{fullscreen, sandbox_closes};
ghost use Rattle.containers.specs.Sandboxes.{sandbox_words};
ghost use Rattle.containers.specs.Answers.{policy_in, unnamed_as, feature_as, IsAllowName, IsPolicies, IsSandboxed, IsDeclared};

use ascii::{Only, TextRange};
use features::DefaultAllowlist;
use origins::{OriginRange, OriginText, TupleRange};
use pieces::Bare;

// The numbers of the features `fullscreen` and `plugins`.
const FULLSCREEN: u32 = 4;

const PLUGINS: u32 = 10;

// The longest keyword, in bytes: `allow-` and a name.
const ALLOW_NAME_BYTES: usize = 6 + features::NAME_BYTES;

// The list that a frame's attributes give a feature, if any: `*`, the empty list (of the sandbox attribute), or the list of an entry, as a range of the allow attribute.
#[derive(Clone, Copy)]
pub enum ContainerPolicy {
    All,
    Empty,
    Words(TextRange),
}

// The declared origin of a frame: a fresh one, the container's, or a range of src.
#[derive(Clone, Copy)]
pub enum DeclaredOrigin {
    Fresh,
    Container,
    Src(TupleRange),
}

// `allow-` and a name: the first `len` of `bytes`; there is no heap.
#[derive(Clone, Copy)]
struct AllowName {
    bytes: [u8; ALLOW_NAME_BYTES],
    len: usize,
}

// `allow-` and the name of a feature: its keyword, if it has one.
fn allow_name(n: u32) -> AllowName
    ensures { IsAllowName n result }
{
    let name = features::name_of(n);
    let len = 6 + name.len();
    let mut bytes = *b"allow-                                 ";
    bytes[6..len].copy_from_slice(name);
    AllowName { bytes, len }
}

impl AllowName {
    fn text(&self) -> &[u8]
        requires { self.now.len ≤ length self.now.bytes }
        ensures { result.now ≡ take self.now.len self.now.bytes }
    {
        &self.bytes[..self.len]
    }
}

// A sandbox attribute stays a mark and a text, here and below: the text's length counts for refusal 4 even where the mark is clear (`specs/Attributes`), and they go on as the calls get them.

// Whether a sandbox attribute closes a feature that allow doesn't name: one with default `*` whose keyword doesn't stand; plugins has none.
#[tactic(auto, using(crate::proofs::Steps::closings))]
fn sandbox_closes(has_sandbox: bool, sandbox: &[u8], n: u32) -> bool
    ensures { result ≡ sandbox_closes (sandbox_words has_sandbox sandbox.now) n }
{
    if !has_sandbox {
        return false;
    }
    match features::default_of(n) {
        Some(DefaultAllowlist::All) => {
            if n == PLUGINS {
                return true;
            }
            let keyword = allow_name(n);
            !pieces::has_keyword(sandbox, keyword.text())
        }
        Some(DefaultAllowlist::SelfOnly) => false,
        None => false,
    }
}

// The policy of a feature that allow doesn't name.
fn unnamed_policy(
    n: u32,
    allowfullscreen: bool,
    has_sandbox: bool,
    sandbox: &[u8],
) -> Option<ContainerPolicy>
    ensures { result ≡ unnamed_as (sandbox_closes (sandbox_words has_sandbox sandbox.now) n) (allowfullscreen && eqb n fullscreen) }
{
    if sandbox_closes(has_sandbox, sandbox, n) {
        return Some(ContainerPolicy::Empty);
    }
    if allowfullscreen & (n == FULLSCREEN) {
        Some(ContainerPolicy::All)
    } else {
        None
    }
}

// The policy of a feature by its entry; under sandbox no entry opens plugins.
fn feature_policy(
    e: Option<TextRange>,
    n: u32,
    allowfullscreen: bool,
    has_sandbox: bool,
    sandbox: &[u8],
) -> Option<ContainerPolicy>
    ensures { result ≡ feature_as allowfullscreen (sandbox_words has_sandbox sandbox.now) n e }
{
    if has_sandbox & (n == PLUGINS) {
        return Some(ContainerPolicy::Empty);
    }
    match e {
        Some(w) => Some(ContainerPolicy::Words(w)),
        None => unnamed_policy(n, allowfullscreen, has_sandbox, sandbox),
    }
}

// What a frame's attributes give each feature; the sandbox text is not read where no sandbox attribute stands.
pub fn container_policies(
    allow: &[u8],
    allowfullscreen: bool,
    has_sandbox: bool,
    sandbox: &[u8],
) -> [Option<ContainerPolicy>; features::COUNT]
    ensures { IsPolicies allow.now allowfullscreen (sandbox_words has_sandbox sandbox.now) result }
{
    let found = pieces::entries(allow, Only(b';'));
    let mut policies = [None; features::COUNT];
    for i in 0..features::COUNT {
        let entry = found[i];
        policies[i] = feature_policy(entry, i as u32, allowfullscreen, has_sandbox, sandbox);
    }
    policies
}

// Whether a container policy admits an origin; `is_container`: it is the container's; `is_declared`: it is the declared one.
pub fn policy_admits(
    allow: &[u8],
    policy: Option<ContainerPolicy>,
    is_container: bool,
    is_declared: bool,
    t: &[u8],
    o: OriginRange,
) -> Option<bool>
    ensures { result ≡ some_admits (policy_in allow.now policy) is_container is_declared (origin_in t.now o) }
{
    match policy? {
        ContainerPolicy::All => Some(true),
        ContainerPolicy::Empty => Some(false),
        ContainerPolicy::Words(words) => Some(pieces::entry_admits(
            allow,
            words,
            Bare::SrcOrigin,
            is_container,
            is_declared,
            t,
            o,
        )),
    }
}

// Whether a frame's document is sandboxed; the text is not read where no sandbox attribute stands.
pub fn is_sandboxed(container_sandboxed: bool, has_sandbox: bool, sandbox: &[u8]) -> bool
    ensures { IsSandboxed container_sandboxed has_sandbox sandbox.now result }
{
    if container_sandboxed {
        return true;
    }
    if !has_sandbox {
        return false;
    }
    !pieces::has_keyword(sandbox, b"allow-same-origin")
}

// The declared origin of a frame whose document is sandboxed or not, by what src says.
pub fn declared_origin(sandboxed: bool, src: Option<OriginText>) -> Option<DeclaredOrigin>
    ensures { IsDeclared sandboxed src result }
{
    match src? {
        OriginText::Null => Some(DeclaredOrigin::Fresh),
        OriginText::Empty => {
            if sandboxed {
                Some(DeclaredOrigin::Fresh)
            } else {
                Some(DeclaredOrigin::Container)
            }
        }
        OriginText::Tuple(range) => {
            if sandboxed {
                Some(DeclaredOrigin::Fresh) // whatever src says
            } else {
                Some(DeclaredOrigin::Src(range))
            }
        }
    }
}
