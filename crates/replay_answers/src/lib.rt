// The texts of answers in the replay format, put into a lent run from a place on.
#![tactic(auto)]

ghost use Rattle.std.specs.Prelude.{◌≡◌, ◌+◌, length, ltb};
ghost use Rattle.limits.specs.Limits.{text_bytes, document_limit};
ghost use Rattle.limits.specs.Refusals.{refusal_number};
ghost use Rattle.documents.specs.Answers.{load_in, unload_in, question_in, features_in, listing_in};
ghost use Rattle.replay_answers.specs.Texts.{refused_text, beneath_text, answer_text, tidy_text, bad_line_text, answer_bytes};
ghost use Rattle.replay_answers.specs.Promises.{Numbers, Says, SaysOf};

use decisions::Decision;
use documents::LoadedDocument;
use limits::{Refusal, TEXT_BYTES};

// The length of the longest answer, `tidied ` and a tidied form, without its line feed.
pub const ANSWER_BYTES: usize = 7 + TEXT_BYTES;

// Whether any answer and its line feed have room from a place on.
pub fn has_room(run: &[u8], at: usize) -> bool
    ensures { result ≡ ltb (at + answer_bytes) (length run.now) }
{
    if run.len() < at {
        return false;
    }
    ANSWER_BYTES < run.len() - at
}

// Puts words and a number.
fn put_numbered(run: &mut [u8], at: usize, words: &[u8], n: u64) -> usize
    ensures { Numbers run.old at words.now n run.new result }
{
    let o = writing::put(run, at, words);
    writing::put_decimal(run, o, n)
}

// Puts a refusal.
fn put_refused(run: &mut [u8], at: usize, n: Refusal) -> usize
    ensures { Says run.old at (refused_text (refusal_number n)) run.new result }
{
    put_numbered(run, at, b"refused ", u64::from(u32::from(n)))
}

// Puts the answer of a load.
pub fn put_load(run: &mut [u8], at: usize, a: Result<LoadedDocument, Refusal>) -> usize
    ensures { Says run.old at (answer_text (load_in a)) run.new result }
{
    match a {
        Err(n) => put_refused(run, at, n),
        Ok(d) => {
            let o = put_numbered(run, at, b"loaded ", u64::from(d.serial));
            if d.malformed {
                return writing::put(run, o, b" malformed");
            }
            o
        }
    }
}

// Puts the answer of an unload.
pub fn put_unload(run: &mut [u8], at: usize, a: Result<usize, Refusal>) -> usize
    ensures { Says run.old at (answer_text (unload_in a)) run.new result }
{
    match a {
        Err(n) => put_refused(run, at, n),
        Ok(n) => put_numbered(run, at, b"unloaded ", n as u64),
    }
}

// Puts the answer of a question.
pub fn put_question(run: &mut [u8], at: usize, a: Result<Decision, Refusal>) -> usize
    ensures { Says run.old at (answer_text (question_in a)) run.new result }
{
    match a {
        Err(refusal) => put_refused(run, at, refusal),
        Ok(decision) => match decision {
            Decision::Enabled => writing::put(run, at, b"Enabled"),
            Decision::Disabled => writing::put(run, at, b"Disabled"),
        },
    }
}

// Puts the answer of a question for the enabled features, or of a forecast.
pub fn put_features(run: &mut [u8], at: usize, a: Result<u32, Refusal>) -> usize
    ensures { Says run.old at (answer_text (features_in a)) run.new result }
{
    match a {
        Err(n) => put_refused(run, at, n),
        Ok(m) => put_numbered(run, at, b"features ", u64::from(m)),
    }
}

// Puts a listing: the count, and serials, each after a space.
fn put_serials(run: &mut [u8], at: usize, n: usize, serials: &[u32]) -> usize
    ensures { SaysOf document_limit serials.now run.old at (beneath_text n serials.now) run.new result }
{
    let mut o = put_numbered(run, at, b"beneath ", n as u64);
    for serial in serials {
        o = put_numbered(run, o, b" ", u64::from(*serial));
    }
    o
}

// Puts the answer of a listing, whose serials are the first of a lent run.
pub fn put_listing(run: &mut [u8], at: usize, a: Result<usize, Refusal>, serials: &[u32]) -> usize
    ensures { SaysOf document_limit serials.now run.old at (answer_text (listing_in a serials.now)) run.new result }
{
    match a {
        Err(n) => put_refused(run, at, n),
        Ok(n) => {
            if serials.len() <= n {
                return put_serials(run, at, n, serials);
            }
            put_serials(run, at, n, &serials[..n])
        }
    }
}

// Puts the answer of tidying, whose form is the front of a lent run.
pub fn put_tidied(run: &mut [u8], at: usize, a: Result<usize, Refusal>, tidied: &[u8]) -> usize
    ensures { SaysOf text_bytes tidied.now run.old at (tidy_text a tidied.now) run.new result }
{
    match a {
        Err(n) => put_refused(run, at, n),
        Ok(n) => {
            let o = writing::put(run, at, b"tidied ");
            if tidied.len() <= n {
                return writing::put(run, o, tidied);
            }
            writing::put(run, o, &tidied[..n])
        }
    }
}

// Puts what answers a line that is none of the calls.
pub fn put_bad_line(run: &mut [u8], at: usize) -> usize
    ensures { Says run.old at bad_line_text run.new result }
{
    writing::put(run, at, b"bad line")
}
