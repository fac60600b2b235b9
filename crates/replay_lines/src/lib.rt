// The lines of the replay format: read in pieces of any size, and which call a line is.
#![tactic(auto)]

ghost use Rattle.std.specs.Option.{option_copied};
ghost use Rattle.std.specs.Prelude.{◌≡◌, ℕ, ◌+◌, ◌≤◌, ◌<◌, min, List, length, get_or};
ghost use Rattle.replay_lines.specs.Format.{is_hex, hex_value, hex_byte, number_of, mark_of, name_of, nothing, number_at, mark_at, text_at, sandbox_at, attributes_at, top_row, frame_row, unload_row, ask_row, enabled_row, beneath_row, forecast_row, tidy_row, call_of};
ghost use Rattle.replay_lines.specs.Reading.{field_limit, line_bytes, new_reading, read_on, is_whole, line_from};
ghost use Rattle.replay_lines.specs.Answers.{IsLiteral, fresh_field, moved_as, literal_as, kept_in, reading_in, IsKept, IsByteRead, IsFieldAt, text_in, sandbox_in, attribute_fields_in, said_in, line_in};

use ascii::TextRange;
use limits::TEXT_BYTES;

// The most fields of a line.
pub const FIELDS: usize = 8;

// The most bytes that are kept of a field: a sandbox mark, the limit of a text, and one byte more.
pub const FIELD_BYTES: usize = TEXT_BYTES + 2;

// A line's run of bytes: each field has its own part of it.
pub const LINE_BYTES: usize = FIELDS * FIELD_BYTES;

// The greatest number of a line.
pub const LAST_NUMBER: u32 = 4_294_967_295;

const TAB: u8 = 9;

// Where a field stands in a `%`.
#[derive(Clone, Copy, PartialEq, Eq)]
pub enum Place {
    // each `%` so far has its two digits
    Plain,
    Percent,
    // past a `%` and this digit
    Digit(u8),
    // past a `%` without two digits
    Broken,
}

// What was read of a field: how many bytes its part of the run keeps, whether it has a `%`, whether a `%` is its first byte.
#[derive(Clone, Copy)]
pub struct FieldState {
    kept: usize,
    escaped: bool,
    opens: bool,
    place: Place,
}

// What was read of a line: the fields that ended, `number` of them, and the one that is read. From FIELDS on there are too many.
#[derive(Clone, Copy)]
pub struct LineState {
    ended: [FieldState; FIELDS],
    number: usize,
    field: FieldState,
}

// The names of the calls.
#[derive(Clone, Copy)]
pub enum CallName {
    Top,
    Frame,
    Unload,
    Ask,
    Enabled,
    Beneath,
    Forecast,
    Tidy,
}

// Whether a sandbox attribute stands, and where its text does: apart, as the calls take them.
#[derive(Clone, Copy)]
pub struct SandboxRange {
    pub stands: bool,
    pub text: TextRange,
}

// A frame's attributes: where their texts stand in the run.
#[derive(Clone, Copy)]
pub struct AttributeRanges {
    pub src: TextRange,
    pub fullscreen: bool,
    pub allow: TextRange,
    pub sandbox: SandboxRange,
}

#[derive(Clone, Copy)]
pub struct TopLine {
    pub origin: TextRange,
    pub header: TextRange,
}

#[derive(Clone, Copy)]
pub struct FrameLine {
    pub container: u32,
    pub origin: TextRange,
    pub attributes: AttributeRanges,
    pub header: TextRange,
}

#[derive(Clone, Copy)]
pub struct AskLine {
    pub serial: u32,
    pub feature: u32,
    pub origin: TextRange,
}

#[derive(Clone, Copy)]
pub struct BeneathLine {
    pub serial: u32,
    pub room: u32,
}

#[derive(Clone, Copy)]
pub struct ForecastLine {
    pub container: u32,
    pub attributes: AttributeRanges,
}

#[derive(Clone, Copy)]
pub struct TidyLine {
    pub room: u32,
    pub header: TextRange,
}

// The call that a line is; its texts stand in the run, at most one byte more of each than the limit.
#[derive(Clone, Copy)]
pub enum Line {
    Top(TopLine),
    Frame(FrameLine),
    // the serial
    Unload(u32),
    Ask(AskLine),
    // the serial
    Enabled(u32),
    Beneath(BeneathLine),
    Forecast(ForecastLine),
    Tidy(TidyLine),
}

fn is_hex(b: u8) -> bool
    ensures { result ≡ is_hex b }
{
    (b >= b'0') & (b <= b'9') | (b >= b'A') & (b <= b'F') | (b >= b'a') & (b <= b'f')
}

// The value of a hex digit; 0 of any other byte.
fn hex_value(b: u8) -> u8
    ensures { (result ≡ hex_value b) × (result ≤ 15) }
{
    let low = (b >= b'a') & (b <= b'f');
    let high = (b >= b'A') & (b <= b'F');
    if ascii::is_digit(b) {
        return b - 48;
    }
    if high {
        return b - 55;
    }
    if low { b - 87 } else { 0 }
}

// The byte of two hex digits.
fn hex_byte(high: u8, low: u8) -> u8
    ensures { result ≡ hex_byte high low }
{
    hex_value(high) * 16 + hex_value(low)
}

// A field of which nothing was read.
fn new_field() -> FieldState
    ensures { result ≡ fresh_field }
{
    FieldState {
        kept: 0,
        escaped: false,
        opens: false,
        place: Place::Plain,
    }
}

// The reading of the empty line.
pub fn new_line() -> LineState
    ensures { (run : List ℕ) → reading_in run result ≡ new_reading }
{
    let f = new_field();
    LineState {
        ended: [f; FIELDS],
        number: 0,
        field: f,
    }
}

// Keeps a byte of a field, if there is room; the answer is how many are kept.
fn keep(kept: usize, b: u8, number: usize, run: &mut [u8]) -> usize
    requires { (number < field_limit) × (length run.old ≡ line_bytes) }
    ensures { IsKept run.old number kept b run.new result }
{
    if kept < FIELD_BYTES {
        run[number * FIELD_BYTES + kept] = b;
        kept + 1
    } else {
        kept
    }
}

// A field at another place of a `%`.
fn moved(f: FieldState, place: Place) -> FieldState
    ensures { result ≡ moved_as f place }
{
    FieldState {
        kept: f.kept,
        escaped: f.escaped,
        opens: f.opens,
        place,
    }
}

// A byte that stands for itself, or a `%`.
fn plain_byte(f: FieldState, b: u8, number: usize, run: &mut [u8]) -> FieldState
    requires { (number < field_limit) × (length run.old ≡ line_bytes) × (f.place ≡ Place.Plain) }
    ensures { IsByteRead run.old number f b run.new result }
{
    if b == b'%' {
        FieldState {
            kept: f.kept,
            escaped: true,
            opens: f.opens | (f.kept == 0),
            place: Place::Percent,
        }
    } else {
        FieldState {
            kept: keep(f.kept, b, number, run),
            escaped: f.escaped,
            opens: f.opens,
            place: Place::Plain,
        }
    }
}

// A byte of a field that is no TAB.
fn read_byte(f: FieldState, b: u8, number: usize, run: &mut [u8]) -> FieldState
    requires { (number < field_limit) × (length run.old ≡ line_bytes) }
    ensures { IsByteRead run.old number f b run.new result }
{
    let place = f.place;
    match place {
        Place::Plain => plain_byte(f, b, number, run),
        Place::Percent => {
            if is_hex(b) {
                moved(f, Place::Digit(b))
            } else {
                moved(f, Place::Broken)
            }
        }
        Place::Digit(a) => {
            if is_hex(b) {
                FieldState {
                    kept: keep(f.kept, hex_byte(a, b), number, run),
                    escaped: f.escaped,
                    opens: f.opens,
                    place: Place::Plain,
                }
            } else {
                moved(f, Place::Broken)
            }
        }
        Place::Broken => f,
    }
}

// Reads a piece into a run that has a part for each field.
fn read_piece(state: LineState, piece: &[u8], run: &mut [u8]) -> LineState
    requires { length run.old ≡ line_bytes }
    ensures { reading_in run.new result ≡ read_on (reading_in run.old state) piece.now }
{
    let mut ended = state.ended;
    let mut number = state.number;
    let mut field = state.field;
    for b in piece {
        if FIELDS <= number {
            return LineState {
                ended,
                number,
                field,
            };
        }
        if *b == TAB {
            ended[number] = field;
            number += 1;
            field = new_field();
        } else {
            field = read_byte(field, *b, number, run);
        }
    }
    LineState {
        ended,
        number,
        field,
    }
}

// Reads the next piece of a line, without its line feed; its texts are kept in the run.
pub fn read(state: LineState, piece: &[u8], run: &mut [u8; LINE_BYTES]) -> LineState
    ensures { reading_in run.new result ≡ read_on (reading_in run.old state) piece.now }
{
    read_piece(state, piece, run)
}

// A number: decimal, with no leading zero.
fn number(t: &[u8]) -> Option<u32>
    ensures { result ≡ number_of t.now }
{
    if origins::leads_zero(t) {
        return None;
    }
    ascii::decimal(t, LAST_NUMBER)
}

// FULLSCREEN: `0` or `1`.
fn mark(t: &[u8]) -> Option<bool>
    ensures { result ≡ mark_of t.now }
{
    if ascii::same(t, b"0") {
        return Some(false);
    }
    if ascii::same(t, b"1") {
        Some(true)
    } else {
        None
    }
}

// The call that a text names.
fn name(t: &[u8]) -> Option<CallName>
    ensures { result ≡ name_of t.now }
{
    if ascii::same(t, b"top") {
        return Some(CallName::Top);
    }
    if ascii::same(t, b"frame") {
        return Some(CallName::Frame);
    }
    if ascii::same(t, b"unload") {
        return Some(CallName::Unload);
    }
    if ascii::same(t, b"ask") {
        return Some(CallName::Ask);
    }
    if ascii::same(t, b"enabled") {
        return Some(CallName::Enabled);
    }
    if ascii::same(t, b"beneath") {
        return Some(CallName::Beneath);
    }
    if ascii::same(t, b"forecast") {
        return Some(CallName::Forecast);
    }
    if ascii::same(t, b"tidy") {
        Some(CallName::Tidy)
    } else {
        None
    }
}

// The field at a place of a line; one that isn't there reads as a broken one.
fn field_at(fields: &[FieldState], j: usize) -> FieldState
    requires { j < field_limit }
    ensures { IsFieldAt fields.now j result }
{
    fields.get(j).copied().unwrap_or(FieldState {
        kept: 0,
        escaped: false,
        opens: false,
        place: Place::Broken,
    })
}

// The bytes that a field keeps.
fn kept(n: usize, j: usize, run: &[u8; LINE_BYTES]) -> &[u8]
    requires { j < field_limit }
    ensures { result.now ≡ kept_in run.now j n }
{
    let from = j * FIELD_BYTES;
    let to = from + n.min(FIELD_BYTES);
    ascii::part(run, from, to)
}

// Whether each `%` so far has its two digits.
fn is_whole(p: Place) -> bool
    ensures { result ≡ is_whole p }
{
    p == Place::Plain
}

// Whether a field has no `%`.
fn is_literal(f: FieldState) -> bool
    ensures { result ≡ literal_as f }
{
    let p = f.place;
    is_whole(p) & !f.escaped
}

// The text of the field at a place that has no `%`.
fn literal<'a>(fields: &[FieldState], j: usize, run: &'a [u8; LINE_BYTES]) -> Option<&'a [u8]>
    requires { j < field_limit }
    ensures { IsLiteral (get_or (said_in run.now fields.now) j nothing) (option_copied result) }
{
    let f = field_at(fields, j);
    if is_literal(f) {
        Some(kept(f.kept, j, run))
    } else {
        None
    }
}

// The field at a place, by each of its readings.
fn name_at(fields: &[FieldState], j: usize, run: &[u8; LINE_BYTES]) -> Option<CallName>
    requires { j < field_limit }
    ensures { result ≡ (get_or (said_in run.now fields.now) j nothing).name }
{
    let text = literal(fields, j, run)?;
    name(text)
}

fn number_at(fields: &[FieldState], j: usize, run: &[u8; LINE_BYTES]) -> Option<u32>
    requires { j < field_limit }
    ensures { result ≡ number_at (said_in run.now fields.now) j }
{
    let text = literal(fields, j, run)?;
    number(text)
}

fn mark_at(fields: &[FieldState], j: usize, run: &[u8; LINE_BYTES]) -> Option<bool>
    requires { j < field_limit }
    ensures { result ≡ mark_at (said_in run.now fields.now) j }
{
    let text = literal(fields, j, run)?;
    mark(text)
}

// A text, at most one byte more of it than the limit.
fn text_at(fields: &[FieldState], j: usize, run: &[u8; LINE_BYTES]) -> Option<TextRange>
    requires { j < field_limit }
    ensures { text_in run.now result ≡ text_at (said_in run.now fields.now) j }
{
    let f = field_at(fields, j);
    let p = f.place;
    if is_whole(p) {
        let t = kept(f.kept, j, run);
        let from = j * FIELD_BYTES;
        Some(TextRange {
            from,
            to: from + t.len().min(TEXT_BYTES + 1),
        })
    } else {
        None
    }
}

// SANDBOX: `0`, or `1` and the attribute's text.
fn sandbox_at(fields: &[FieldState], j: usize, run: &[u8; LINE_BYTES]) -> Option<SandboxRange>
    requires { j < field_limit }
    ensures { sandbox_in run.now result ≡ sandbox_at (said_in run.now fields.now) j }
{
    let f = field_at(fields, j);
    let p = f.place;
    if !(is_whole(p) & !f.opens) {
        return None;
    }
    let t = kept(f.kept, j, run);
    if ascii::byte(t, 0) == b'1' {
        let from = j * FIELD_BYTES;
        return Some(SandboxRange {
            stands: true,
            text: TextRange {
                from: from + 1,
                to: from + t.len(),
            },
        });
    }
    if ascii::same(t, b"0") {
        Some(SandboxRange {
            stands: false,
            text: TextRange { from: 0, to: 0 },
        })
    } else {
        None
    }
}

// SRC FULLSCREEN ALLOW SANDBOX, from a place on.
#[tactic(auto, using(crate::proofs::Choices::givens), unfolding(crate::specs::Format::attributes_at))]
fn attributes_at(fields: &[FieldState], j: usize, run: &[u8; LINE_BYTES]) -> Option<AttributeRanges>
    requires { j + 3 < field_limit }
    ensures { attribute_fields_in run.now result ≡ attributes_at (said_in run.now fields.now) j }
{
    let src = text_at(fields, j, run)?;
    let fullscreen = mark_at(fields, j + 1, run)?;
    let allow = text_at(fields, j + 2, run)?;
    let sandbox = sandbox_at(fields, j + 3, run)?;
    Some(AttributeRanges {
        src,
        fullscreen,
        allow,
        sandbox,
    })
}

// The rows of the format's table, a function for each, since each is a row there.
#[tactic(auto, using(crate::proofs::Choices::rows), unfolding(crate::specs::Format::top_row))]
fn top_line(fields: &[FieldState], run: &[u8; LINE_BYTES]) -> Option<Line>
    ensures { line_in run.now result ≡ top_row (said_in run.now fields.now) }
{
    if fields.len() != 3 {
        return None;
    }
    let origin = text_at(fields, 1, run)?;
    let header = text_at(fields, 2, run)?;
    Some(Line::Top(TopLine { origin, header }))
}

#[tactic(auto, using(crate::proofs::Choices::rows), unfolding(crate::specs::Format::frame_row))]
fn frame_line(fields: &[FieldState], run: &[u8; LINE_BYTES]) -> Option<Line>
    ensures { line_in run.now result ≡ frame_row (said_in run.now fields.now) }
{
    if fields.len() != 8 {
        return None;
    }
    let container = number_at(fields, 1, run)?;
    let origin = text_at(fields, 2, run)?;
    let attributes = attributes_at(fields, 3, run)?;
    let header = text_at(fields, 7, run)?;
    Some(Line::Frame(FrameLine {
        container,
        origin,
        attributes,
        header,
    }))
}

#[tactic(auto, using(crate::proofs::Choices::rows), unfolding(crate::specs::Format::unload_row))]
fn unload_line(fields: &[FieldState], run: &[u8; LINE_BYTES]) -> Option<Line>
    ensures { line_in run.now result ≡ unload_row (said_in run.now fields.now) }
{
    if fields.len() != 2 {
        return None;
    }
    let serial = number_at(fields, 1, run)?;
    Some(Line::Unload(serial))
}

#[tactic(auto, using(crate::proofs::Choices::rows), unfolding(crate::specs::Format::ask_row))]
fn ask_line(fields: &[FieldState], run: &[u8; LINE_BYTES]) -> Option<Line>
    ensures { line_in run.now result ≡ ask_row (said_in run.now fields.now) }
{
    if fields.len() != 4 {
        return None;
    }
    let serial = number_at(fields, 1, run)?;
    let feature = number_at(fields, 2, run)?;
    let origin = text_at(fields, 3, run)?;
    Some(Line::Ask(AskLine {
        serial,
        feature,
        origin,
    }))
}

#[tactic(auto, using(crate::proofs::Choices::rows), unfolding(crate::specs::Format::enabled_row))]
fn enabled_line(fields: &[FieldState], run: &[u8; LINE_BYTES]) -> Option<Line>
    ensures { line_in run.now result ≡ enabled_row (said_in run.now fields.now) }
{
    if fields.len() != 2 {
        return None;
    }
    let serial = number_at(fields, 1, run)?;
    Some(Line::Enabled(serial))
}

#[tactic(auto, using(crate::proofs::Choices::rows), unfolding(crate::specs::Format::beneath_row))]
fn beneath_line(fields: &[FieldState], run: &[u8; LINE_BYTES]) -> Option<Line>
    ensures { line_in run.now result ≡ beneath_row (said_in run.now fields.now) }
{
    if fields.len() != 3 {
        return None;
    }
    let serial = number_at(fields, 1, run)?;
    let room = number_at(fields, 2, run)?;
    Some(Line::Beneath(BeneathLine { serial, room }))
}

#[tactic(auto, using(crate::proofs::Choices::rows), unfolding(crate::specs::Format::forecast_row))]
fn forecast_line(fields: &[FieldState], run: &[u8; LINE_BYTES]) -> Option<Line>
    ensures { line_in run.now result ≡ forecast_row (said_in run.now fields.now) }
{
    if fields.len() != 6 {
        return None;
    }
    let container = number_at(fields, 1, run)?;
    let attributes = attributes_at(fields, 2, run)?;
    Some(Line::Forecast(ForecastLine {
        container,
        attributes,
    }))
}

#[tactic(auto, using(crate::proofs::Choices::rows), unfolding(crate::specs::Format::tidy_row))]
fn tidy_line(fields: &[FieldState], run: &[u8; LINE_BYTES]) -> Option<Line>
    ensures { line_in run.now result ≡ tidy_row (said_in run.now fields.now) }
{
    if fields.len() != 3 {
        return None;
    }
    let room = number_at(fields, 1, run)?;
    let header = text_at(fields, 2, run)?;
    Some(Line::Tidy(TidyLine { room, header }))
}

// The call that a line's fields are, by its name.
#[tactic(auto, using(crate::proofs::Lines::call_row))]
fn row(fields: &[FieldState], run: &[u8; LINE_BYTES]) -> Option<Line>
    ensures { line_in run.now result ≡ call_of (said_in run.now fields.now) }
{
    match name_at(fields, 0, run)? {
        CallName::Top => top_line(fields, run),
        CallName::Frame => frame_line(fields, run),
        CallName::Unload => unload_line(fields, run),
        CallName::Ask => ask_line(fields, run),
        CallName::Enabled => enabled_line(fields, run),
        CallName::Beneath => beneath_line(fields, run),
        CallName::Forecast => forecast_line(fields, run),
        CallName::Tidy => tidy_line(fields, run),
    }
}

// The call that a line is, read to its end.
pub fn call(state: LineState, run: &[u8; LINE_BYTES]) -> Option<Line>
    ensures { line_in run.now result ≡ line_from (reading_in run.now state) }
{
    let number = state.number;
    if FIELDS <= number {
        return None;
    }
    let mut fields = state.ended;
    fields[number] = state.field;
    row(&fields[..number + 1], run)
}
