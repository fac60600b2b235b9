// What a slot of the table says of the document that it is given to, and what decides about that: its questions, its enabled features, what a frame of it inherits.
#![tactic(auto)]

ghost use Rattle.std.specs.Prelude.{◌≡◌, ◌==◌, ◌+◌, ◌<◌, ◌≤◌};
ghost use Rattle.std.specs.List.{list_any};
ghost use Rattle.std.specs.Int.{from_le_bytes, w32};
ghost use Rattle.features.specs.Features.{feature_count};
ghost use Rattle.origins.specs.Origins.Origin.{fresh};
ghost use Rattle.origins.specs.Matching.{same_origin};
ghost use Rattle.origins.specs.Answers.{origin_in};
ghost use Rattle.containers.specs.Sandboxes.{sandbox_words};
ghost use Rattle.containers.specs.Answers.{policy_in, declared_in};
ghost use Rattle.decisions.specs.Answers.{decision_in};
ghost use Rattle.decisions.specs.Masks.{mask_of};
ghost use Rattle.decisions.specs.Policies.{value_in, question_in, enabled_mask};
ghost use Rattle.document_model.specs.Model.{elem};
ghost use Rattle.lent_bytes.specs.Numbers.{number_at, numbers_in};
ghost use Rattle.document_records.specs.Slots.{slot_bytes, above_bytes, own_text, own_origin, is_sandboxed_in, slot_policy, Kept, GoodSlot};
ghost use Rattle.document_records.specs.Records.{range_by, DeclaredAnswers, IsOwnRange, declared_is, Inherits, IsInherited};

use containers::{ContainerPolicy, DeclaredOrigin};
use decisions::{Decision, Framed};
use lent_bytes::NUMBER;
use limits::{DOCUMENTS, TEXT_BYTES};
use origins::{OriginRange, OriginText};

// The longest origin text: `https://`, a host, `:` and a port.
pub const ORIGIN_BYTES: usize = 8 + limits::HOST_BYTES + 1 + limits::PORT_DIGITS;

// The bytes that a header is settled into, at most.
pub const SETTLED_BYTES: usize = settled::HEAD + TEXT_BYTES;

// Where the parts of a slot stand: what is Enabled at every origin and what at the document's own, bit n for feature n; how many serials stand above it; what it inherits;
// the number of an opaque origin; how long its origin text is; whether it is sandboxed; the serials above it; its origin text; what its header was settled into.
pub const EVERYWHERE: usize = 0;

pub const ENABLED: usize = 4;

pub const DEPTH: usize = 8;

pub const INHERITED: usize = 12;

pub const OPAQUE: usize = 16;

pub const OWN_LENGTH: usize = 20;

pub const SANDBOXED: usize = 24;

pub const ABOVE: usize = 28;

pub const OWN_TEXT: usize = ABOVE + NUMBER * DOCUMENTS;

pub const SETTLED: usize = OWN_TEXT + ORIGIN_BYTES;

// Bytes of a slot.
pub const SLOT_BYTES: usize = SETTLED + SETTLED_BYTES;

// An origin, beside its text.
#[derive(Clone, Copy)]
pub struct WrittenOrigin<'a> {
    pub text: &'a [u8],
    pub range: OriginRange,
}

impl<'a> WrittenOrigin<'a> {
    pub fn is_same(&self, other: &WrittenOrigin<'_>) -> bool
        ensures { result ≡ same_origin (origin_in self.now.text.now self.now.range) (origin_in other.now.text.now other.now.range) }
    {
        origins::same_origin(self.text, self.range, other.text, other.range)
    }
}

// A frame's attributes; the sandbox text is not read where no sandbox attribute stands.
#[derive(Clone, Copy)]
pub struct Frame<'a> {
    pub allow: &'a [u8],
    pub allowfullscreen: bool,
    pub has_sandbox: bool,
    pub sandbox: &'a [u8],
    pub src: &'a [u8],
}

// An origin by what its text says; without a tuple it is opaque, by a number.
fn range_by(said: Option<OriginText>, number: u32) -> OriginRange
    ensures { result ≡ range_by said number }
{
    match said {
        Some(OriginText::Tuple(r)) => OriginRange::Tuple(r),
        Some(OriginText::Empty) => OriginRange::Opaque(number),
        Some(OriginText::Null) => OriginRange::Opaque(number),
        None => OriginRange::Opaque(number),
    }
}

// Whether a number is one of those with these bytes.
fn is_one_of(x: u32, numbers: &[[u8; NUMBER]]) -> bool
    ensures { result ≡ list_any (λ n. x == from_le_bytes w32 n) numbers.now }
{
    numbers.iter().any(|n| x == u32::from_le_bytes(*n))
}

// Whether a number is among those of a text.
#[tactic(auto, using(crate::proofs::Reading::held))]
fn holds(list: &[u8], x: u32) -> bool
    ensures { result ≡ elem x (numbers_in list.now) }
{
    let (numbers, _) = list.as_chunks::<NUMBER>();
    is_one_of(x, numbers)
}

// A slot that has a document: its bytes.
#[derive(Clone, Copy)]
pub struct Slot<'a> {
    pub bytes: &'a [u8],
    ghost kept: { Kept bytes.now },
}

impl<'a> Slot<'a> {
    // The number at a place.
    pub fn number(&self, at: usize) -> u32
        requires { at + 4 ≤ slot_bytes }
        ensures { result ≡ number_at self.now.bytes.now at }
    {
        lent_bytes::number(self.bytes, at)
    }

    // The serials above the document, the nearest first, as they stand.
    pub fn above(&self) -> &'a [u8]
        ensures { result.now ≡ above_bytes self.now.bytes.now }
    {
        lent_bytes::part(self.bytes, ABOVE, NUMBER * self.number(DEPTH) as usize)
    }

    // Whether the document is beneath a serial.
    pub fn is_beneath(&self, serial: u32) -> bool
        ensures { result ≡ elem serial (numbers_in (above_bytes self.now.bytes.now)) }
    {
        holds(self.above(), serial)
    }

    pub fn is_sandboxed(&self) -> bool
        ensures { result ≡ is_sandboxed_in self.now.bytes.now }
    {
        self.number(SANDBOXED) != 0
    }

    // The text of the document's origin; empty where that is opaque.
    pub fn own_text(&self) -> &'a [u8]
        ensures { result.now ≡ own_text self.now.bytes.now }
    {
        lent_bytes::part(self.bytes, OWN_TEXT, self.number(OWN_LENGTH) as usize)
    }

    // The document's origin.
    #[tactic(auto, using(crate::proofs::Reading::readings))]
    pub fn own(&self) -> WrittenOrigin<'a>
        ensures text { result.text.now ≡ own_text self.now.bytes.now }
        ensures range { IsOwnRange self.now.bytes.now result.range }
    {
        let text = self.own_text();
        let range = range_by(origins::origin_text(text), self.number(OPAQUE));
        WrittenOrigin { text, range }
    }

    // The document asked at its own origin.
    #[tactic(auto, using(crate::proofs::Reading::readings))]
    fn asked_at_own(&self) -> Asked<'a, 'a>
        ensures slot { result.slot.bytes.now ≡ self.now.bytes.now }
        ensures origin { origin_in result.origin.text.now result.origin.range ≡ own_origin self.now.bytes.now }
    {
        let own = self.own();
        let same = own.is_same(&own);
        Asked {
            slot: *self,
            origin: own,
            same,
        }
    }

    // The features enabled at a fresh origin, and so at every origin: what a load keeps of its decisions.
    pub fn everywhere_of(&self) -> u32
        ensures { result ≡ mask_of (λ n. question_in (slot_policy self.now.bytes.now) n fresh) }
    {
        let asked = Asked {
            slot: *self,
            origin: WrittenOrigin {
                text: b"",
                range: OriginRange::Fresh,
            },
            same: false,
        };
        asked.enabled()
    }

    // The features enabled at the document's own origin: the other number that a load keeps.
    pub fn enabled_of(&self) -> u32
        ensures { result ≡ enabled_mask (slot_policy self.now.bytes.now) }
    {
        self.asked_at_own().enabled()
    }

    // The features enabled at the document's own origin, as a load kept them.
    pub fn enabled(&self) -> u32
        requires { GoodSlot self.now.bytes.now }
        ensures { result ≡ enabled_mask (slot_policy self.now.bytes.now) }
    {
        self.number(ENABLED)
    }

    // Whether an origin is the declared one of a frame in the document, by what src says.
    pub fn is_declared(
        &self,
        declared: Option<DeclaredOrigin>,
        src: &[u8],
        origin: &WrittenOrigin<'_>,
    ) -> bool
        ensures { result ≡ declared_is (declared_in src.now (own_origin self.now.bytes.now) declared) (origin_in origin.now.text.now origin.now.range) }
    {
        let Some(declared) = declared else {
            return false;
        };
        match declared {
            DeclaredOrigin::Fresh => false,
            DeclaredOrigin::Container => self.own().is_same(origin),
            DeclaredOrigin::Src(range) => WrittenOrigin {
                text: src,
                range: OriginRange::Tuple(range),
            }
            .is_same(origin),
        }
    }

    // What a document at an origin inherits in a frame of the document, bit n for feature n; `declared`: the origin is the frame's declared one.
    pub fn inherited(&self, frame: &Frame<'_>, declared: bool, origin: &WrittenOrigin<'_>) -> u32
        ensures { IsInherited (slot_policy self.now.bytes.now) frame.now.allow.now frame.now.allowfullscreen (sandbox_words frame.now.has_sandbox frame.now.sandbox.now) declared (origin_in origin.now.text.now origin.now.range) result }
    {
        let policies = containers::container_policies(
            frame.allow,
            frame.allowfullscreen,
            frame.has_sandbox,
            frame.sandbox,
        );
        let own = self.asked_at_own();
        let same = own.origin.is_same(origin);
        let arriving = Arriving {
            own,
            arriving: Asked {
                slot: *self,
                origin: *origin,
                same,
            },
            declared,
        };
        decisions::mask_by(
            |n: u32|
                requires { n < feature_count }
            { arriving.inherits(policies[n as usize], n, frame.allow) },
        )
    }
}

// A document that is asked about at an origin; `same`: it is the document's own.
#[derive(Clone, Copy)]
struct Asked<'a, 'o> {
    slot: Slot<'a>,
    origin: WrittenOrigin<'o>,
    same: bool,
    ghost told: { same ≡ same_origin (own_origin slot.bytes.now) (origin_in origin.text.now origin.range) },
}

impl<'a, 'o> Asked<'a, 'o> {
    // What the document's header answers.
    fn declared(&self, n: u32) -> Option<bool>
        ensures { DeclaredAnswers self.now.slot.bytes.now n self.now.same (origin_in self.now.origin.text.now self.now.origin.range) result }
    {
        settled::admits(
            lent_bytes::part(self.slot.bytes, SETTLED, SETTLED_BYTES),
            n,
            self.same,
            self.origin.text,
            self.origin.range,
        )
    }

    // *Value* of a feature.
    fn value(&self, n: u32) -> Decision
        ensures { decision_in result ≡ value_in (slot_policy self.now.slot.bytes.now) n (origin_in self.now.origin.text.now self.now.origin.range) }
    {
        let inherited = decisions::decision_at(self.slot.number(INHERITED), n);
        decisions::value(inherited, self.declared(n))
    }

    // *Question* of a feature.
    fn question(&self, n: u32) -> Decision
        ensures { decision_in result ≡ question_in (slot_policy self.now.slot.bytes.now) n (origin_in self.now.origin.text.now self.now.origin.range) }
    {
        let inherited = decisions::decision_at(self.slot.number(INHERITED), n);
        let default = features::default_of(n);
        decisions::question(inherited, self.declared(n), default, self.same)
    }

    // The features enabled, bit n for feature n.
    fn enabled(&self) -> u32
        ensures { result ≡ mask_of (λ n. question_in (slot_policy self.now.slot.bytes.now) n (origin_in self.now.origin.text.now self.now.origin.range)) }
    {
        decisions::mask_by(|n| self.question(n))
    }
}

// An origin that arrives in a frame of a document: the document asked at its own origin and at the arriving one; `declared`: that is the frame's declared one.
#[derive(Clone, Copy)]
struct Arriving<'a, 'o> {
    own: Asked<'a, 'a>,
    arriving: Asked<'a, 'o>,
    declared: bool,
    ghost one_slot: { arriving.slot.bytes.now ≡ own.slot.bytes.now },
    ghost at_own: { origin_in own.origin.text.now own.origin.range ≡ own_origin own.slot.bytes.now },
}

impl<'a, 'o> Arriving<'a, 'o> {
    // *Inherited* of a feature for the arriving origin.
    fn inherits(&self, policy: Option<ContainerPolicy>, n: u32, allow: &[u8]) -> Decision
        ensures { Inherits (slot_policy self.now.own.slot.bytes.now) n (policy_in allow.now policy) self.now.declared (origin_in self.now.arriving.origin.text.now self.now.arriving.origin.range) (decision_in result) }
    {
        let value_own = self.own.value(n);
        let value_arriving = self.arriving.value(n);
        let origin = self.arriving.origin;
        let same = self.arriving.same;
        let allowed = containers::policy_admits(
            allow,
            policy,
            same,
            self.declared,
            origin.text,
            origin.range,
        );
        let default = features::default_of(n);
        decisions::inherited(Framed {
            value_own,
            value_arriving,
            allowed,
            default,
            same,
        })
    }
}
