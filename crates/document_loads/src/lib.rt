// What a load makes and writes: a document at the top or in a frame, and its bytes in a slot of the table. And what a frame would inherit at its declared origin.
#![tactic(auto)]

ghost use Rattle.std.specs.Prelude.{◌≡◌, ◌++◌, ◌*◌, ◌^◌, ◌≤◌, ◌<◌, length, take};
ghost use Rattle.writing.specs.Writing.{with_text};
ghost use Rattle.limits.specs.Limits.{document_limit};
ghost use Rattle.lent_bytes.specs.Numbers.{bytes_of, number_bytes};
ghost use Rattle.document_records.specs.Slots.{slot_bytes, origin_bytes, depth_place, above_bytes, Kept, GoodSlot};
ghost use Rattle.document_loads.specs.Loads.{attributes_of, IsOpaque, Arrives, IsTopDocument, IsFramedDocument, Foretells};
ghost use Rattle.document_loads.specs.Slots.{filled, numbers_of, front_put, with_decisions, PutsHeader, Fits, Writes};

use containers::DeclaredOrigin;
use document_records::{Frame, ORIGIN_BYTES, Slot, WrittenOrigin};
use lent_bytes::NUMBER;
use limits::DOCUMENTS;
use origins::{OriginRange, OriginText};

// Two of a frame's attributes: whether allowfullscreen stands, and whether a sandbox attribute does. The calls take its text beside them, since that counts for refusal 4 with no attribute too.
#[derive(Clone, Copy)]
pub struct FrameMarks {
    pub allowfullscreen: bool,
    pub has_sandbox: bool,
}

// Bytes of the serials above a document.
const ABOVE_BYTES: usize = NUMBER * DOCUMENTS;

// A document that is loaded, but for its header: the serials above it as they stand in a slot, and how many they are; the text of its origin, its length, and the number of an opaque one
// (0 for a tuple); whether it is sandboxed; what it inherits, bit n for feature n. Arrays with a length beside them: there is no heap, and the slot whose parts they become
// is borrowed from while they are made.
#[derive(Clone, Copy)]
pub struct NewDocument {
    pub above: [u8; ABOVE_BYTES],
    pub depth: u32,
    pub text: [u8; ORIGIN_BYTES],
    pub length: u32,
    pub number: u32,
    pub sandboxed: bool,
    pub inherited: u32,
}

// The origin at which a document arrives: its text at the front of `text`, as it stands in a slot, and the number of an opaque one. An array, since a document's text is an argument's or the container's.
#[derive(Clone, Copy)]
struct Arrival {
    text: [u8; ORIGIN_BYTES],
    length: usize,
    number: u32,
    origin: OriginRange,
}

// A text at the front of a room for an origin's.
fn copied(s: &[u8]) -> [u8; ORIGIN_BYTES]
    requires { length s.now ≤ origin_bytes }
    ensures { result ≡ filled origin_bytes s.now }
{
    let mut text = [0u8; ORIGIN_BYTES];
    lent_bytes::put_text(&mut text, 0, s);
    text
}

// The origin at which a document arrives, by its origin text; an empty one means the container's, `own` with its number.
fn arrive(origin: &[u8], own: &WrittenOrigin<'_>, number: u32, serial: u32) -> Arrival
    requires { length own.now.text.now ≤ origin_bytes }
    ensures { Arrives origin.now own.now.text.now number own.now.range serial result }
{
    let Some(said) = origins::origin_text(origin) else {
        return opaque(serial);
    };
    match said {
        OriginText::Empty => Arrival {
            text: copied(own.text),
            length: own.text.len(),
            number,
            origin: own.range,
        },
        OriginText::Tuple(range) => Arrival {
            text: copied(origin),
            length: origin.len(),
            number: 0,
            origin: OriginRange::Tuple(range),
        },
        OriginText::Null => opaque(serial),
    }
}

// An opaque origin has no text.
fn opaque(serial: u32) -> Arrival
    ensures { IsOpaque serial result }
{
    Arrival {
        text: [0u8; ORIGIN_BYTES],
        length: 0,
        number: serial,
        origin: OriginRange::Opaque(serial),
    }
}

// A document at the top.
pub fn top_document(serial: u32, origin: &[u8]) -> NewDocument
    ensures { IsTopDocument origin.now serial result }
{
    let own = WrittenOrigin {
        text: b"",
        range: OriginRange::Opaque(serial),
    };
    let a = arrive(origin, &own, serial, serial);
    let text = a.text;
    NewDocument {
        above: [0; ABOVE_BYTES],
        depth: 0,
        text,
        length: a.length as u32,
        number: a.number,
        sandboxed: false,
        inherited: decisions::ALL_FEATURES,
    }
}

// The serials above a document in a frame of another: that one's, and those above it.
fn above_in(c: &Slot<'_>, serial: u32) -> [u8; ABOVE_BYTES]
    requires { GoodSlot c.now.bytes.now }
    ensures { (result ≡ filled (4 * document_limit) (bytes_of serial ++ above_bytes c.now.bytes.now)) × (serial < 2 ^ 32) }
{
    let mut above = [0u8; ABOVE_BYTES];
    lent_bytes::put_number(&mut above, 0, serial);
    lent_bytes::put_text(&mut above, NUMBER, c.above());
    above
}

// A document in a frame of another, which stands in a slot and has a serial.
pub fn framed_document(
    c: &Slot<'_>,
    container: u32,
    serial: u32,
    origin: &[u8],
    frame: &Frame<'_>,
) -> NewDocument
    requires { GoodSlot c.now.bytes.now }
    ensures { IsFramedDocument c.now.bytes.now container origin.now (attributes_of frame.now) serial result }
{
    let src = frame.src;
    let src_said = origins::origin_text(src);
    let sandboxed = containers::is_sandboxed(c.is_sandboxed(), frame.has_sandbox, frame.sandbox);
    let declared = containers::declared_origin(sandboxed, src_said);
    let own = c.own();
    let a = arrive(origin, &own, c.number(document_records::OPAQUE), serial);
    let text = a.text;
    let here = WrittenOrigin {
        text: &text[..a.length],
        range: a.origin,
    };
    let is_declared = c.is_declared(declared, src, &here);
    let inherited = c.inherited(frame, is_declared, &here);
    let above = above_in(c, container);
    let depth = c.number(document_records::DEPTH) + 1;
    NewDocument {
        above,
        depth,
        text,
        length: a.length as u32,
        number: a.number,
        sandboxed,
        inherited,
    }
}

// Puts the numbers of a document into a slot.
fn put_numbers(slot: &mut [u8], d: &NewDocument)
    requires { slot_bytes ≤ length slot.old }
    ensures { slot.new ≡ with_text slot.old depth_place (number_bytes (numbers_of d.now)) }
{
    lent_bytes::put_number(slot, document_records::DEPTH, d.depth);
    lent_bytes::put_number(slot, document_records::INHERITED, d.inherited);
    lent_bytes::put_number(slot, document_records::OPAQUE, d.number);
    lent_bytes::put_number(slot, document_records::OWN_LENGTH, d.length);
    lent_bytes::put_number(slot, document_records::SANDBOXED, u32::from(d.sandboxed));
}

// Puts a document into a slot, but for its header and its decisions.
fn put_front(slot: &mut [u8], d: &NewDocument)
    requires { (slot_bytes ≤ length slot.old) × Fits d.now }
    ensures { slot.new ≡ front_put slot.old d.now }
{
    // copies of the arrays: the compiler makes a call of `memmove` of a copy from behind the reference into the slot, which no archive needed before
    let above = d.above;
    let text = d.text;
    put_numbers(slot, d);
    lent_bytes::put_text(
        slot,
        document_records::ABOVE,
        &above[..NUMBER * d.depth as usize],
    );
    lent_bytes::put_text(slot, document_records::OWN_TEXT, &text[..d.length as usize]);
}

// Settles a header into a slot; whether it was malformed, as one over the limit counts.
fn put_header(slot: &mut [u8], header: &[u8]) -> bool
    requires { slot_bytes ≤ length slot.old }
    ensures { PutsHeader slot.old header.now slot.new result }
{
    let from = document_records::SETTLED;
    let to = document_records::SLOT_BYTES;
    match settling::settle(header, &mut slot[from..to]) {
        Ok(f) => f.malformed,
        Err(_) => true,
    }
}

// Puts the two numbers of decisions into a slot.
fn put_decisions(slot: &mut [u8])
    requires { Kept slot.old }
    ensures { slot.new ≡ with_decisions slot.old }
{
    let kept = Slot { bytes: slot };
    let everywhere = kept.everywhere_of();
    let enabled = kept.enabled_of();
    lent_bytes::put_number(slot, document_records::EVERYWHERE, everywhere);
    lent_bytes::put_number(slot, document_records::ENABLED, enabled);
}

// Writes a document with a header into a slot; whether the header was malformed.
pub fn write_document(slot: &mut [u8], d: &NewDocument, header: &[u8]) -> bool
    requires { (slot_bytes ≤ length slot.old) × Fits d.now }
    ensures { Writes slot.old d.now header.now slot.new result }
{
    put_front(slot, d);
    let malformed = put_header(slot, header);
    put_decisions(slot);
    malformed
}

// What a frame in a document would inherit at its declared origin.
pub fn foretold(c: &Slot<'_>, frame: &Frame<'_>) -> u32
    ensures { Foretells c.now.bytes.now (attributes_of frame.now) result }
{
    let said = origins::origin_text(frame.src);
    let sandboxed = containers::is_sandboxed(c.is_sandboxed(), frame.has_sandbox, frame.sandbox);
    let fresh = WrittenOrigin {
        text: frame.src,
        range: OriginRange::Fresh,
    };
    let Some(declared) = containers::declared_origin(sandboxed, said) else {
        return c.inherited(frame, false, &fresh);
    };
    match declared {
        DeclaredOrigin::Fresh => c.inherited(frame, false, &fresh),
        DeclaredOrigin::Container => {
            let own = c.own();
            c.inherited(frame, own.is_same(&own), &own)
        }
        DeclaredOrigin::Src(range) => {
            let named = WrittenOrigin {
                text: frame.src,
                range: OriginRange::Tuple(range),
            };
            c.inherited(frame, true, &named)
        }
    }
}
