// Functions exported for the trials in bench/ and tests/: tidying, settling, the question to a list, and the calls on the table, with numbers for their answers.
#![tactic(auto)]

ghost use Rattle.std.specs.Prelude.{◌≡◌, false, ◌≤◌};
ghost use Rattle.limits.specs.Limits.{document_limit};
ghost use Rattle.limits.specs.Refusals.{refusal_number};
ghost use Rattle.origins.specs.Origins.Origin.{tuple};
ghost use Rattle.allowlists.specs.Allowlists.{some_admits};
ghost use Rattle.settled.specs.Settled.{declared_in};
ghost use Rattle.document_model.specs.Model.{top_load, framed_load, unload, question, enabled_features, listing, forecast_of, refused, answer_to};
ghost use Rattle.document_table.specs.Layout.{table_bytes, view};
ghost use Rattle.document_loads.specs.Loads.{attributes};
ghost use Rattle.documents.specs.Answers.{Valid, question_in, features_in, load_in, unload_in, removed_by, listed_by};
ghost use Rattle.speed_exports.specs.Codes.{tidy_code, settled_code, admission_code, TidiedBy, SettledBy, is_own, asked_scheme, asked_origin};
ghost use Rattle.speed_exports.specs.Numbers.{numbers_of, new_numbers, listing_numbers, marks_of, IsNewBy, LoadsBy, UnloadsBy, ListsBy};

use ascii::TextRange;
use decisions::Decision;
use document_loads::FrameMarks;
use documents::LoadedDocument;
use limits::Refusal;
use origins::{OriginRange, Scheme, TupleParts, TupleRange};
use settling::{SettleError, SettledHeader};

// The exports answer in numbers, and each kind of answer has a function for its own: the C interface.

// 2^32: numbers from here on are no lengths.
const BEYOND: u64 = 4_294_967_296;

fn tidy_code(a: Result<usize, Refusal>) -> u64
    ensures { result ≡ tidy_code a }
{
    match a {
        Ok(n) => n as u64,
        Err(k) => BEYOND + (limits::refusal_number(k) as u64),
    }
}

// Tidies a header: the length of the form, or 2^32 and the refusal's number.
#[unsafe(no_mangle)]
pub extern "C" fn speed_tidy(s: &[u8], out: &mut [u8]) -> u64
    ensures { TidiedBy s.now out.old out.new result }
{
    let a = tidying::tidy(s, out);
    tidy_code(a)
}

fn settled_code(a: Result<SettledHeader, SettleError>) -> u64
    ensures { result ≡ settled_code a }
{
    match a {
        Ok(f) => { if f.malformed { BEYOND } else { f.to as u64 } }
        Err(error) => match error {
            SettleError::TooLong => 2 * BEYOND,
            SettleError::NoRoom => 4 * BEYOND,
        },
    }
}

// Settles a header: the bytes that it takes; 2^32 where it is malformed, 2^33 where it is too long, 2^34 where the run is too short.
#[unsafe(no_mangle)]
pub extern "C" fn speed_settle(s: &[u8], run: &mut [u8]) -> u64
    ensures { SettledBy s.now run.old run.new result }
{
    let a = settling::settle(s, run);
    settled_code(a)
}

fn admission_code(a: Option<bool>) -> u32
    ensures { result ≡ admission_code a }
{
    match a {
        None => 0,
        Some(admitted) => if admitted { 1 } else { 2 },
    }
}

fn asked_scheme(asked: u32) -> Scheme
    ensures { result ≡ asked_scheme asked }
{
    if asked / 2 % 2 == 1 {
        Scheme::Https
    } else {
        Scheme::Http
    }
}

// Whether a document's bytes admit a tuple origin for a feature, the origin by its host and one number for the rest.
#[unsafe(no_mangle)]
pub extern "C" fn speed_admits(d: &[u8], feature: u32, asked: u32, host: &[u8]) -> u32
    ensures { result ≡ admission_code (some_admits (declared_in d.now feature) (is_own asked) false (tuple (asked_origin asked host.now))) }
{
    let scheme = asked_scheme(asked);
    let parts = TupleParts {
        scheme,
        port: asked / 65_536,
    };
    let o = OriginRange::Tuple(TupleRange {
        parts,
        host: TextRange {
            from: 0,
            to: host.len(),
        },
    });
    admission_code(settled::admits(d, feature, asked % 2 == 1, host, o))
}

// An answer of a call on the table: a refusal's number, or 0 and what the call gives.
#[repr(C)]
#[derive(Clone, Copy)]
pub struct Numbers {
    pub refusal: u32,
    pub value: u32,
    pub second: u32,
}

// The values of a question's answer.
const ENABLED: u32 = 1;

const DISABLED: u32 = 2;

fn refused_numbers(r: Refusal) -> Numbers
    ensures { result ≡ numbers_of (refused (refusal_number r)) }
{
    Numbers {
        refusal: limits::refusal_number(r),
        value: 0,
        second: 0,
    }
}

fn new_numbers(a: Result<(), Refusal>) -> Numbers
    ensures { result ≡ new_numbers a }
{
    match a {
        Ok(()) => Numbers {
            refusal: 0,
            value: 0,
            second: 0,
        },
        Err(r) => refused_numbers(r),
    }
}

fn question_numbers(a: Result<Decision, Refusal>) -> Numbers
    ensures { result ≡ numbers_of (question_in a) }
{
    match a {
        Ok(decision) => match decision {
            Decision::Enabled => Numbers {
                refusal: 0,
                value: ENABLED,
                second: 0,
            },
            Decision::Disabled => Numbers {
                refusal: 0,
                value: DISABLED,
                second: 0,
            },
        },
        Err(r) => refused_numbers(r),
    }
}

fn features_numbers(a: Result<u32, Refusal>) -> Numbers
    ensures { result ≡ numbers_of (features_in a) }
{
    match a {
        Ok(m) => Numbers {
            refusal: 0,
            value: m,
            second: 0,
        },
        Err(r) => refused_numbers(r),
    }
}

fn load_numbers(a: Result<LoadedDocument, Refusal>) -> Numbers
    ensures { result ≡ numbers_of (load_in a) }
{
    match a {
        Ok(d) => {
            if d.malformed {
                return Numbers {
                    refusal: 0,
                    value: d.serial,
                    second: 1,
                };
            }
            Numbers {
                refusal: 0,
                value: d.serial,
                second: 0,
            }
        }
        Err(r) => refused_numbers(r),
    }
}

fn narrow(n: usize) -> u32
    requires { n ≤ document_limit }
    ensures { result ≡ n }
{
    n as u32
}

fn unload_numbers(a: Result<usize, Refusal>) -> Numbers
    requires { removed_by a ≤ document_limit }
    ensures { result ≡ numbers_of (unload_in a) }
{
    match a {
        Ok(n) => Numbers {
            refusal: 0,
            value: narrow(n),
            second: 0,
        },
        Err(r) => refused_numbers(r),
    }
}

fn listing_numbers(a: Result<usize, Refusal>) -> Numbers
    requires { listed_by a ≤ document_limit }
    ensures { result ≡ listing_numbers a }
{
    match a {
        Ok(n) => Numbers {
            refusal: 0,
            value: narrow(n),
            second: 0,
        },
        Err(r) => refused_numbers(r),
    }
}

// A frame's marks: 1 for allowfullscreen, 2 for a sandbox attribute.
fn marks_of(marks: u32) -> FrameMarks
    ensures { result ≡ marks_of marks }
{
    FrameMarks {
        allowfullscreen: marks % 2 == 1,
        has_sandbox: marks / 2 % 2 == 1,
    }
}

// The bytes of a table.
#[unsafe(no_mangle)]
pub extern "C" fn speed_table_bytes() -> usize
    ensures { result ≡ table_bytes }
{
    document_table::TABLE_BYTES
}

#[unsafe(no_mangle)]
pub extern "C" fn speed_new_table(run: &mut [u8]) -> Numbers
    ensures { IsNewBy run.old run.new result }
{
    let a = documents::new_table(run);
    new_numbers(a)
}

#[unsafe(no_mangle)]
pub extern "C" fn speed_load_top(run: &mut [u8], origin: &[u8], header: &[u8]) -> Numbers
    requires { Valid run.old }
    ensures { LoadsBy (top_load header.now origin.now) run.old run.new result }
{
    let a = documents::load_top(run, origin, header);
    load_numbers(a)
}

#[unsafe(no_mangle)]
pub extern "C" fn speed_load_framed(
    run: &mut [u8],
    container: u32,
    origin: &[u8],
    src: &[u8],
    marks: u32,
    allow: &[u8],
    sandbox: &[u8],
    header: &[u8],
) -> Numbers
    requires { Valid run.old }
    ensures { LoadsBy (framed_load container header.now origin.now (attributes allow.now (marks_of marks) sandbox.now src.now)) run.old run.new result }
{
    let m = marks_of(marks);
    let a = documents::load_framed(run, container, origin, src, m, allow, sandbox, header);
    load_numbers(a)
}

#[unsafe(no_mangle)]
pub extern "C" fn speed_unload(run: &mut [u8], serial: u32) -> Numbers
    requires { Valid run.old }
    ensures { UnloadsBy (unload serial) run.old run.new result }
{
    let a = documents::unload(run, serial);
    unload_numbers(a)
}

#[unsafe(no_mangle)]
pub extern "C" fn speed_question(run: &[u8], serial: u32, feature: u32, origin: &[u8]) -> Numbers
    requires { Valid run.now }
    ensures { result ≡ numbers_of (answer_to (question serial feature origin.now) (view run.now)) }
{
    let a = documents::question(run, serial, feature, origin);
    question_numbers(a)
}

#[unsafe(no_mangle)]
pub extern "C" fn speed_enabled_features(run: &[u8], serial: u32) -> Numbers
    requires { Valid run.now }
    ensures { result ≡ numbers_of (answer_to (enabled_features serial) (view run.now)) }
{
    let a = documents::enabled_features(run, serial);
    features_numbers(a)
}

#[unsafe(no_mangle)]
pub extern "C" fn speed_list_beneath(run: &[u8], serial: u32, out: &mut [u32]) -> Numbers
    requires { Valid run.now }
    ensures { ListsBy (listing serial out.old) run.now out.old out.new result }
{
    let a = documents::list_beneath(run, serial, out);
    listing_numbers(a)
}

#[unsafe(no_mangle)]
pub extern "C" fn speed_forecast(
    run: &[u8],
    container: u32,
    src: &[u8],
    marks: u32,
    allow: &[u8],
    sandbox: &[u8],
) -> Numbers
    requires { Valid run.now }
    ensures { result ≡ numbers_of (answer_to (forecast_of container (attributes allow.now (marks_of marks) sandbox.now src.now)) (view run.now)) }
{
    let m = marks_of(marks);
    let a = documents::forecast(run, container, src, m, allow, sandbox);
    features_numbers(a)
}
