// Document 01's cases about frames and the table that the replay format has no line for, and those of 02's R-4 about lent memory, over the library's calls: a sandbox text
// without a sandbox attribute, the lent run of a listing place by place, the table after a refusal, and a new table in runs of several lengths, whatever bytes stand in them.
#![tactic(auto)]

ghost use Rattle.documents.specs.Answers.{Valid};

use document_loads::FrameMarks;
use document_table::TABLE_BYTES;
use documents::LoadedDocument;
use limits::Refusal;
use std::io;

const OUT: usize = 2048;

// 02, R-4: "4 MiB never is" too short.
const MEMORY: usize = 4_194_304;

// Writes a case's name and its answer, a line.
fn tell(rt: &impl Print, name: &[u8], answer: &[u8]) -> io::Result<()> {
    rt.write_all(name)?;
    rt.write_all(b": ")?;
    rt.write_all(answer)?;
    rt.write_all(b"\n")
}

// Writes a case's name and an answer, by what puts that into a run.
fn tell_put<F: FnOnce(&mut [u8]) -> usize>(rt: &impl Print, name: &[u8], put: F) -> io::Result<()>
    requires { F.IsAlwaysCallable put }
{
    let mut out = [0u8; OUT];
    let n = put(&mut out);
    tell(rt, name, ascii::part(&out, 0, n))
}

fn tell_load(rt: &impl Print, name: &[u8], a: Result<LoadedDocument, Refusal>) -> io::Result<()> {
    tell_put(rt, name, |out| replay_answers::put_load(out, 0, a))
}

fn tell_features(rt: &impl Print, name: &[u8], a: Result<u32, Refusal>) -> io::Result<()> {
    tell_put(rt, name, |out| replay_answers::put_features(out, 0, a))
}

// A listing's answer, and every place of the lent run.
fn tell_listing(
    rt: &impl Print,
    name: &[u8],
    a: Result<usize, Refusal>,
    run: &[u32],
) -> io::Result<()> {
    tell_put(rt, name, |out| replay_answers::put_listing(out, 0, a, run))?;
    tell_put(rt, b"  the lent run", |out| {
        replay_answers::put_listing(out, 0, Ok(run.len()), run)
    })
}

// A frame of the first document, with marks and a sandbox text, arriving where its src points.
fn frame(
    rt: &impl Print,
    name: &[u8],
    run: &mut [u8],
    has_sandbox: bool,
    sandbox: &[u8],
) -> io::Result<()>
    requires { Valid run.old }
    ensures { Valid run.new }
{
    let marks = FrameMarks {
        allowfullscreen: false,
        has_sandbox,
    };
    let a = documents::load_framed(
        run,
        1,
        b"https://b.example",
        b"https://b.example",
        marks,
        b"",
        sandbox,
        b"",
    );
    tell_load(rt, name, a)
}

fn foretell(
    rt: &impl Print,
    name: &[u8],
    run: &[u8],
    has_sandbox: bool,
    sandbox: &[u8],
) -> io::Result<()>
    requires { Valid run.now }
{
    let marks = FrameMarks {
        allowfullscreen: false,
        has_sandbox,
    };
    let a = documents::forecast(run, 1, b"https://b.example", marks, b"", sandbox);
    tell_features(rt, name, a)
}

fn frame_and_forecast(
    rt: &impl Print,
    name: &[u8],
    run: &mut [u8],
    has_sandbox: bool,
    sandbox: &[u8],
) -> io::Result<()>
    requires { Valid run.old }
    ensures { Valid run.new }
{
    frame(rt, name, run, has_sandbox, sandbox)?;
    foretell(rt, b"its forecast", run, has_sandbox, sandbox)
}

// A sandbox text of one byte too many, and one without that byte.
fn long_texts(
    rt: &impl Print,
    too_long: &[u8],
    longest: &[u8],
    run: &mut [u8],
    has_sandbox: bool,
) -> io::Result<()>
    requires { Valid run.old }
    ensures { Valid run.new }
{
    let text = [b'a'; 4097];
    frame_and_forecast(rt, too_long, run, has_sandbox, &text)?;
    frame_and_forecast(rt, longest, run, has_sandbox, &text[..4096])
}

// A listing of what is beneath the first document, into a run of sevens.
fn list(rt: &impl Print, name: &[u8], run: &[u8], out: &mut [u32]) -> io::Result<()>
    requires { Valid run.now }
{
    let a = documents::list_beneath(run, 1, out);
    tell_listing(rt, name, a, out)
}

fn frames(rt: &impl Print, run: &mut [u8]) -> io::Result<()>
    requires { Valid run.old }
    ensures { Valid run.new }
{
    tell_load(
        rt,
        b"a document at the top",
        documents::load_top(run, b"https://a.example", b""),
    )?;
    long_texts(
        rt,
        b"mark clear, sandbox text of 4,097 bytes",
        b"mark clear, sandbox text of 4,096 bytes",
        run,
        false,
    )?;
    foretell(
        rt,
        b"mark clear, `allow-forms` not read: its forecast",
        run,
        false,
        b"allow-forms",
    )?;
    foretell(
        rt,
        b"mark set, `allow-forms`: its forecast",
        run,
        true,
        b"allow-forms",
    )
}

fn more_frames(rt: &impl Print, run: &mut [u8]) -> io::Result<()>
    requires { Valid run.old }
    ensures { Valid run.new }
{
    long_texts(
        rt,
        b"mark set, sandbox text of 4,097 bytes",
        b"mark set, sandbox text of 4,096 bytes",
        run,
        true,
    )?;
    frame(
        rt,
        b"mark clear, `allow-same-origin` not read",
        run,
        false,
        b"allow-same-origin",
    )
}

fn listings(rt: &impl Print, run: &mut [u8]) -> io::Result<()>
    requires { Valid run.old }
    ensures { Valid run.new }
{
    tell_features(rt, b"its features", documents::enabled_features(run, 3))?;
    let mut short = [7u32; 1];
    list(rt, b"a listing of two in one place", run, &mut short)?;
    let mut enough = [7u32; 2];
    list(rt, b"in two places", run, &mut enough)?;
    let mut more = [7u32; 4];
    list(rt, b"in four places", run, &mut more)?;
    let unloaded = documents::unload(run, 9);
    tell_put(rt, b"an unload of a serial to come", |out| {
        replay_answers::put_unload(out, 0, unloaded)
    })?;
    let mut again = [7u32; 4];
    list(rt, b"the listing after it", run, &mut again)
}

// A sandbox text of 4,096 bytes whose last word is a keyword, and one byte more.
fn last_keyword(rt: &impl Print, run: &[u8]) -> io::Result<()>
    requires { Valid run.now }
{
    let mut text = [b' '; 4097];
    writing::put(&mut text, 4085, b"allow-forms");
    let enough = ascii::part(&text, 0, 4096);
    foretell(
        rt,
        b"mark clear, 4,096 bytes that end in `allow-forms`: its forecast",
        run,
        false,
        enough,
    )?;
    foretell(rt, b"mark set: its forecast", run, true, enough)?;
    foretell(
        rt,
        b"mark clear, one byte more: its forecast",
        run,
        false,
        &text,
    )?;
    foretell(
        rt,
        b"mark set, one byte more: its forecast",
        run,
        true,
        &text,
    )
}

// The same with the word that lifts the sandbox.
fn last_word(rt: &impl Print, run: &mut [u8]) -> io::Result<()>
    requires { Valid run.old }
    ensures { Valid run.new }
{
    let mut text = [b' '; 4097];
    writing::put(&mut text, 4079, b"allow-same-origin");
    frame(
        rt,
        b"mark set, 4,096 bytes that end in `allow-same-origin`",
        run,
        true,
        ascii::part(&text, 0, 4096),
    )?;
    frame(rt, b"one byte more", run, true, &text)?;
    tell_features(rt, b"its features", documents::enabled_features(run, 4))
}

// A new table in a lent run, and the cases on it.
fn session(rt: &impl Print, name: &[u8], run: &mut [u8]) -> io::Result<()> {
    match documents::new_table(run) {
        Ok(()) => {
            tell(rt, name, b"ready")?;
            frames(rt, run)?;
            more_frames(rt, run)?;
            listings(rt, run)?;
            last_keyword(rt, run)?;
            last_word(rt, run)
        }
        Err(n) => tell_load(rt, name, Err(n)),
    }
}

// Whether every byte of a run is that one.
fn is_full(run: &[u8], b: u8) -> bool {
    run.iter().all(|x| *x == b)
}

fn tell_bytes(rt: &impl Print, name: &[u8], run: &[u8], b: u8) -> io::Result<()> {
    if is_full(run, b) {
        tell(rt, name, b"unchanged")
    } else {
        tell(rt, name, b"changed")
    }
}

// The same in so many of the bytes of a run.
fn session_in(rt: &impl Print, name: &[u8], memory: &mut [u8], n: usize) -> io::Result<()> {
    if memory.len() < n {
        return Ok(());
    }
    session(rt, name, &mut memory[..n])
}

// Whether the bytes of a run past a table are that one.
fn tell_past(rt: &impl Print, memory: &[u8], b: u8) -> io::Result<()> {
    let past = ascii::part(memory, TABLE_BYTES, memory.len());
    tell_bytes(rt, b"the memory past it", past, b)
}

// "a new table in too short a run .. is refused with 9", and a refusal changes nothing.
fn short_runs(rt: &impl Print, memory: &mut [u8]) -> io::Result<()> {
    session_in(rt, b"a new table in no bytes", memory, 0)?;
    session_in(rt, b"a new table in sixteen bytes", memory, 16)?;
    session_in(
        rt,
        b"a new table in one byte too few",
        memory,
        TABLE_BYTES - 1,
    )?;
    tell_bytes(rt, b"the memory", memory, 255)
}

// The same answers in a run of bytes 255 that is just long enough, over what that table left, and over zeros; the bytes past a table stay as they are.
fn long_runs(rt: &impl Print, memory: &mut [u8]) -> io::Result<()> {
    session_in(
        rt,
        b"a new table in just enough bytes, all of them 255",
        memory,
        TABLE_BYTES,
    )?;
    tell_past(rt, memory, 255)?;
    session(rt, b"a new table in 4 MiB, over the last one", memory)?;
    tell_past(rt, memory, 255)?;
    memory.fill(0);
    session(rt, b"a new table in 4 MiB of zeros", memory)?;
    tell_past(rt, memory, 0)
}

// All the sessions, in one memory.
fn sessions(rt: &impl Print, memory: &mut [u8; MEMORY]) -> io::Result<()> {
    short_runs(rt, memory)?;
    long_runs(rt, memory)
}

fn main(rt: HostRuntime) -> io::Result<()> {
    let mut memory = [255u8; MEMORY];
    sessions(&rt, &mut memory)
}
