// A replayed session: calls on one new table in a lent run, from standard input, a line each, and their answers on standard output.
#![tactic(auto)]

ghost use Rattle.std.specs.Prelude.{IfOk};
ghost use Rattle.documents.specs.Answers.{Valid};
ghost use Rattle.replaying.specs.Sessions.{Ready, Ends, Replayed};

use ascii::{Only, Outside};
use replay_lines::{LINE_BYTES, LineState};
use std::io;
use std::io::Read;

// The input is read in pieces of so many bytes.
const IN_BYTES: usize = 2048;

// Answers are gathered in so many bytes before they are written: all buffers of a program, its table aside, have to stay within 64 KiB.
const OUT_BYTES: usize = replay_answers::ANSWER_BYTES + 1529;

// What was read of the line that has begun, if one has; and how many bytes of answers wait to be written.
#[derive(Clone, Copy)]
struct Session {
    line: Option<LineState>,
    waiting: usize,
}

// Tells a failure on standard error; where that can't be written, nothing is left to tell.
fn tell(rt: &impl Eprint, failure: &str) {
    let _ = rt.eprintln(failure);
}

// A line ends: its call is made, and its answer put behind those that wait; these are written where the next might not have room. No line has begun then. The session changes
// in place: a line's state is some hundred bytes, too many to hand up with each result.
fn end_line(
    rt: &impl Print,
    run: &mut [u8],
    s: &mut Session,
    line: LineState,
    texts: &[u8; LINE_BYTES],
    out: &mut [u8; OUT_BYTES],
) -> io::Result<()>
    requires { Ready run.old s.old.waiting }
    ensures { Ends run.old line s.old.waiting texts.now run.new out.old out.new s.new }
{
    let call = replay_lines::call(line, texts);
    let at = replay_session::answer(run, call, texts, out, s.waiting);
    let to = writing::put_byte(out, at, b'\n');
    s.line = None;
    if replay_answers::has_room(out, to) {
        s.waiting = to;
        return Ok(());
    }
    s.waiting = 0;
    rt.write_all(ascii::part(out, 0, to))
}

// A piece of the input: lines, the last perhaps to be continued.
fn take_piece(
    rt: &impl Print,
    run: &mut [u8],
    s: Session,
    piece: &[u8],
    texts: &mut [u8; LINE_BYTES],
    out: &mut [u8; OUT_BYTES],
) -> io::Result<Session>
    requires { Ready run.old s.waiting }
    ensures valid { Valid run.new }
    ensures ok { IfOk result (λ s. Ready run.new s.waiting) }
{
    let mut next = s;
    let mut from: usize = 0;
    // not a `for` over `split_inclusive`: today's check takes no invariant for one whose iterator holds a closure
    while from < piece.len() {
        let to = ascii::run_end(piece, from, Outside(Only(b'\n')));
        // no `unwrap_or`: a new line's state would be made for a line that goes on too
        let begun = match next.line {
            Some(line) => line,
            None => replay_lines::new_line(),
        };
        let line = replay_lines::read(begun, ascii::part(piece, from, to), texts);
        if to < piece.len() {
            end_line(rt, run, &mut next, line, texts, out)?;
        } else {
            next.line = Some(line);
        }
        from = to + 1;
    }
    Ok(next)
}

// The input ends, and so does a line that has begun; the answers that wait are written.
fn finish(
    rt: &impl Print,
    run: &mut [u8],
    s: Session,
    texts: &[u8; LINE_BYTES],
    out: &mut [u8; OUT_BYTES],
) -> io::Result<()>
    requires { Ready run.old s.waiting }
    ensures { Valid run.new }
{
    let mut last = s;
    if let Some(line) = s.line {
        end_line(rt, run, &mut last, line, texts, out)?;
    }
    rt.write_all(ascii::part(out, 0, last.waiting))
}

// The session on a table, in at most 2^64 - 1 reads. Where a read fails, that is told and the line that had begun is dropped; a failure is of a write.
fn replay(rt: &(impl Print + Eprint), input: &mut impl Read, table: &mut [u8]) -> io::Result<()>
    requires { Valid table.old }
    ensures { Valid table.new }
{
    let mut piece = [0u8; IN_BYTES];
    let mut texts = [0u8; LINE_BYTES];
    let mut out = [0u8; OUT_BYTES];
    let mut s = Session {
        line: None,
        waiting: 0,
    };
    for _ in 0..u64::MAX {
        match input.read(&mut piece) {
            Ok(0) => break,
            Ok(n) => s = take_piece(rt, table, s, &piece[..n], &mut texts, &mut out)?,
            Err(_) => {
                tell(rt, "replay: standard input can't be read");
                s.line = None;
                break;
            }
        }
    }
    finish(rt, table, s, &texts, &mut out)
}

// A session on a new table in a lent run; a run that is too short is told.
pub fn run(rt: &(impl Print + Eprint), input: &mut impl Read, table: &mut [u8])
    ensures { Replayed table.old table.new }
{
    match documents::new_table(table) {
        Ok(()) => {
            if replay(rt, input, table).is_err() {
                tell(rt, "replay: standard output can't be written");
            }
        }
        Err(_) => tell(rt, "replay: the lent run is too short"),
    }
}
