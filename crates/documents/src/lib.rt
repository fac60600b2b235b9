// The calls on the table of loaded documents.
#![tactic(auto)]

ghost use Rattle.std.specs.Prelude.{◌≡◌, ◌≤◌, ◌<◌, length, Some};
ghost use Rattle.limits.specs.Limits.{text_bytes, document_limit};
ghost use Rattle.features.specs.Features.{feature_count};
ghost use Rattle.origins.specs.Origins.{origin_of};
ghost use Rattle.origins.specs.Origins.Origin.{tuple};
ghost use Rattle.origins.specs.Answers.{origin_as, tuple_in};
ghost use Rattle.decisions.specs.Decisions.{decided};
ghost use Rattle.decisions.specs.Policies.{question_in as question_policy};
ghost use Rattle.document_model.specs.Model.{unload, question, enabled_features, listing, forecast_of, top_load, framed_load, asked_at};
ghost use Rattle.document_records.specs.Slots.{own_origin, slot_policy, GoodSlot};
ghost use Rattle.document_loads.specs.Slots.{Fits};
ghost use Rattle.document_loads.specs.Loads.{attributes, attributes_of};
ghost use Rattle.documents.specs.Answers.{Valid, IsNew, Decides, TellsFeatures, Loads, Unloads, removed_by, Lists, listed_by};
ghost use Rattle.documents.specs.Steps.{bit_at, AskedTuple, is_bad_at_top, HasRoom, IsRoom, Places, is_barred, AreTexts, IsFrameRoom, IsAdmitted, HasPlace, LoadsAt};

use decisions::Decision;
use document_loads::{FrameMarks, NewDocument};
use document_records::{Frame, SLOT_BYTES, Slot};
use document_table::Table;
use limits::{DOCUMENTS, Refusal, TEXT_BYTES};
use origins::{OriginRange, OriginText, TupleRange};

// An accepted load: its serial, and whether its header was malformed; both are told of every one.
#[derive(Clone, Copy)]
pub struct LoadedDocument {
    pub serial: u32,
    pub malformed: bool,
}

// Where a framed load goes: the place of its container, and its serial.
#[derive(Clone, Copy)]
struct FramePlace {
    container: usize,
    serial: u32,
}

// A new table is empty. It lives in the lent run; one that is too short is refused.
pub fn new_table(run: &mut [u8]) -> Result<(), Refusal>
    ensures { IsNew run.old run.new result }
{
    if run.len() < document_table::TABLE_BYTES {
        return Err(Refusal::Small);
    }
    document_table::clear(run);
    Ok(())
}

// Bit n of a number.
fn bit(mask: u32, n: u32) -> bool
    requires { n < feature_count }
    ensures { result ≡ bit_at mask n }
{
    (mask >> n) % 2 == 1
}

// The question for a tuple origin, where the feature isn't Enabled at every origin.
fn tuple_decided(slot: &Slot<'_>, feature: u32, text: &[u8], o: TupleRange) -> bool
    requires { AskedTuple slot.now.bytes.now feature text.now o }
    ensures { decided result ≡ question_policy (slot_policy slot.now.bytes.now) feature (tuple (tuple_in text.now o)) }
{
    if ascii::same(slot.own_text(), text) {
        return bit(slot.number(document_records::ENABLED), feature);
    }
    if !bit(slot.number(document_records::INHERITED), feature) {
        return false;
    }
    let kept = lent_bytes::part(
        slot.bytes,
        document_records::SETTLED,
        document_records::SETTLED_BYTES,
    );
    // without a list it stays Disabled here
    settled::admits(kept, feature, false, text, OriginRange::Tuple(o)).unwrap_or(false)
}

// *Question* of a feature in the document for the origin that a text says: by the numbers that a load kept, and for another tuple origin by the list.
fn is_enabled(slot: &Slot<'_>, feature: u32, text: &[u8], said: OriginText) -> bool
    requires { GoodSlot slot.now.bytes.now × (feature < feature_count) × (Some said ≡ origin_as (origin_of text.now)) }
    ensures { decided result ≡ question_policy (slot_policy slot.now.bytes.now) feature (asked_at (origin_of text.now) (own_origin slot.now.bytes.now)) }
{
    if bit(slot.number(document_records::EVERYWHERE), feature) {
        return true;
    }
    match said {
        OriginText::Empty => bit(slot.number(document_records::ENABLED), feature),
        OriginText::Null => false,
        OriginText::Tuple(t) => tuple_decided(slot, feature, text, t),
    }
}

// The question of a feature to a document at an origin.
pub fn question(run: &[u8], serial: u32, feature: u32, origin: &[u8]) -> Result<Decision, Refusal>
    requires { Valid run.now }
    ensures { Decides (question serial feature origin.now) run.now result }
{
    let Some(said) = origins::origin_text(origin) else {
        return Err(Refusal::BadOrigin);
    };
    if features::COUNT as u32 <= feature {
        return Err(Refusal::NoSuchFeature);
    }
    let table = Table { run };
    let Some(asked) = table.find(serial) else {
        return Err(Refusal::NotLoaded); // a closed document gets neither decision
    };
    if is_enabled(&table.slot(asked), feature, origin, said) {
        Ok(Decision::Enabled)
    } else {
        Ok(Decision::Disabled)
    }
}

// The features enabled at a document's own origin.
pub fn enabled_features(run: &[u8], serial: u32) -> Result<u32, Refusal>
    requires { Valid run.now }
    ensures { TellsFeatures (enabled_features serial) run.now result }
{
    let table = Table { run };
    let Some(i) = table.find(serial) else {
        return Err(Refusal::NotLoaded);
    };
    Ok(table.slot(i).enabled())
}

// A document is removed, and all beneath it.
pub fn unload(run: &mut [u8], serial: u32) -> Result<usize, Refusal>
    requires { Valid run.old }
    ensures { Unloads (unload serial) run.old run.new result × (removed_by result ≤ document_limit) }
{
    let table = Table { run };
    let Some(_) = table.find(serial) else {
        return Err(Refusal::NotLoaded);
    };
    Ok(document_table::remove(run, serial))
}

// The serials beneath a document, ascending, written into a lent run of numbers.
pub fn list_beneath(run: &[u8], serial: u32, out: &mut [u32]) -> Result<usize, Refusal>
    requires { Valid run.now }
    ensures { Lists (listing serial out.old) run.now out.old out.new result × (listed_by result ≤ document_limit) }
{
    let table = Table { run };
    let Some(_) = table.find(serial) else {
        return Err(Refusal::NotLoaded);
    };
    let beneath = table.serials_beneath(serial);
    let list = beneath.as_slice();
    let n = list.len();
    if out.len() < n {
        return Err(Refusal::Small);
    }
    out[..n].copy_from_slice(list);
    Ok(n)
}

// What a frame with these attributes would inherit in a document at its declared origin. The attributes are parameters of their own in the calls, as the manual has them; below they are a `Frame`.
pub fn forecast(
    run: &[u8],
    container: u32,
    src: &[u8],
    marks: FrameMarks,
    allow: &[u8],
    sandbox: &[u8],
) -> Result<u32, Refusal>
    requires { Valid run.now }
    ensures { TellsFeatures (forecast_of container (attributes allow.now marks sandbox.now src.now)) run.now result }
{
    if TEXT_BYTES < allow.len() {
        return Err(Refusal::TooLong);
    }
    if TEXT_BYTES < sandbox.len() {
        return Err(Refusal::TooLong);
    }
    if origins::origin_text(src).is_none() {
        return Err(Refusal::BadOrigin);
    }
    let table = Table { run };
    let Some(i) = table.find(container) else {
        return Err(Refusal::NotLoaded);
    };
    let frame = Frame {
        allow,
        allowfullscreen: marks.allowfullscreen,
        has_sandbox: marks.has_sandbox,
        sandbox,
        src,
    };
    Ok(document_loads::foretold(&table.slot(i), &frame))
}

// Whether an origin text is none for a top-level load: there the empty one is none.
fn is_bad_at_top(said: Option<OriginText>) -> bool
    ensures { result ≡ is_bad_at_top said }
{
    matches!(said, None | Some(OriginText::Empty))
}

// Room and a serial for a load.
fn room_for_one(table: &Table<'_>) -> Result<u32, Refusal>
    ensures { IsRoom table.now.run.now result }
{
    let n = table.count();
    let is_full = DOCUMENTS <= n;
    if is_full {
        return Err(Refusal::Full);
    }
    let last = table.last();
    if limits::LAST_SERIAL <= last {
        return Err(Refusal::Spent);
    }
    Ok(last + 1)
}

// Writes a document into the first free slot and gives it the next serial.
fn place(run: &mut [u8], serial: u32, d: &NewDocument, header: &[u8]) -> LoadedDocument
    requires { HasRoom run.old × Fits d.now × (length header.now ≤ text_bytes) }
    ensures { Places run.old d.now header.now run.new result × (result.serial ≡ serial) }
{
    let table = Table { run };
    let n = table.count();
    let p = table.slot_place(n);
    let e = p + SLOT_BYTES;
    let malformed = document_loads::write_document(&mut run[p..e], d, header);
    document_table::push(run);
    LoadedDocument { serial, malformed }
}

// A document is loaded at the top.
pub fn load_top(run: &mut [u8], origin: &[u8], header: &[u8]) -> Result<LoadedDocument, Refusal>
    requires { Valid run.old }
    ensures { Loads (top_load header.now origin.now) run.old run.new result }
{
    if TEXT_BYTES < header.len() {
        return Err(Refusal::TooLong);
    }
    let said = origins::origin_text(origin);
    if is_bad_at_top(said) {
        return Err(Refusal::BadOrigin);
    }
    let table = Table { run };
    let n = room_for_one(&table)?;
    let d = document_loads::top_document(n, origin);
    Ok(place(run, n, &d, header))
}

// Whether a sandboxed document must be refused its origin text: any but `null`.
fn is_barred(sandboxed: bool, said: Option<OriginText>) -> bool
    ensures { result ≡ is_barred sandboxed said }
{
    sandboxed && !matches!(said, Some(OriginText::Null))
}

// Refusals 4 and 3 of a framed load.
fn frame_texts(
    header: &[u8],
    frame: &Frame<'_>,
    said: Option<OriginText>,
    src_said: Option<OriginText>,
) -> Result<(), Refusal>
    ensures { AreTexts header.now frame.now.allow.now frame.now.sandbox.now said src_said result }
{
    if TEXT_BYTES < header.len() {
        return Err(Refusal::TooLong);
    }
    let allow = frame.allow;
    if TEXT_BYTES < allow.len() {
        return Err(Refusal::TooLong);
    }
    let sandbox = frame.sandbox;
    if TEXT_BYTES < sandbox.len() {
        return Err(Refusal::TooLong);
    }
    if said.is_none() {
        return Err(Refusal::BadOrigin);
    }
    if src_said.is_none() {
        return Err(Refusal::BadOrigin);
    }
    Ok(())
}

// Refusals 1, 5, 6 and 7 of a framed load, or where it goes.
fn frame_room(
    run: &[u8],
    container: u32,
    said: Option<OriginText>,
    frame: &Frame<'_>,
) -> Result<FramePlace, Refusal>
    requires { Valid run.now }
    ensures { IsFrameRoom run.now container said frame.now.has_sandbox frame.now.sandbox.now result }
{
    let table = Table { run };
    let Some(i) = table.find(container) else {
        return Err(Refusal::NotLoaded);
    };
    let above = table.slot(i).is_sandboxed();
    let sandboxed = containers::is_sandboxed(above, frame.has_sandbox, frame.sandbox);
    if is_barred(sandboxed, said) {
        return Err(Refusal::Sandbox);
    }
    let serial = room_for_one(&table)?;
    Ok(FramePlace {
        container: i,
        serial,
    })
}

// Every refusal of a framed load, or where it goes.
fn frame_admitted(
    run: &[u8],
    container: u32,
    said: Option<OriginText>,
    src_said: Option<OriginText>,
    frame: &Frame<'_>,
    header: &[u8],
) -> Result<FramePlace, Refusal>
    requires { Valid run.now }
    ensures { IsAdmitted run.now container said src_said frame.now header.now result }
{
    frame_texts(header, frame, said, src_said)?;
    frame_room(run, container, said, frame)
}

// A document is loaded in a frame of the document at a place.
fn load_at(
    run: &mut [u8],
    p: FramePlace,
    container: u32,
    origin: &[u8],
    frame: &Frame<'_>,
    header: &[u8],
) -> LoadedDocument
    requires { HasPlace run.old p × (length header.now ≤ text_bytes) }
    ensures { LoadsAt run.old p container header.now origin.now (attributes_of frame.now) run.new result }
{
    let i = p.container;
    let serial = p.serial;
    let table = Table { run };
    let c = table.slot(i);
    let d = document_loads::framed_document(&c, container, serial, origin, frame);
    place(run, serial, &d, header)
}

// A document is loaded in a frame of another.
pub fn load_framed(
    run: &mut [u8],
    container: u32,
    origin: &[u8],
    src: &[u8],
    marks: FrameMarks,
    allow: &[u8],
    sandbox: &[u8],
    header: &[u8],
) -> Result<LoadedDocument, Refusal>
    requires { Valid run.old }
    ensures { Loads (framed_load container header.now origin.now (attributes allow.now marks sandbox.now src.now)) run.old run.new result }
{
    let said = origins::origin_text(origin);
    let src_said = origins::origin_text(src);
    let frame = Frame {
        allow,
        allowfullscreen: marks.allowfullscreen,
        has_sandbox: marks.has_sandbox,
        sandbox,
        src,
    };
    let p = frame_admitted(run, container, said, src_said, &frame, header)?;
    Ok(load_at(run, p, container, origin, &frame, header))
}
