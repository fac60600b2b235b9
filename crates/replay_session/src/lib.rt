// A line of the replay format on a table of documents: the call that it is, made, and its answer put into a lent run.
#![tactic(auto)]

ghost use Rattle.std.specs.Prelude.{◌≡◌, ◌≤◌, length};
ghost use Rattle.ascii.specs.Texts.{part_in};
ghost use Rattle.tidying.specs.Tidied.{tidied};
ghost use Rattle.tidying.specs.Answers.{tidy_answer};
ghost use Rattle.document_model.specs.Model.{top_load, framed_load, unload, question, enabled_features, listing, forecast_of, answer_to};
ghost use Rattle.document_loads.specs.Loads.{attributes};
ghost use Rattle.document_table.specs.Layout.{view};
ghost use Rattle.documents.specs.Answers.{Valid};
ghost use Rattle.replay_answers.specs.Texts.{answer_text};
ghost use Rattle.replay_answers.specs.Promises.{Says};
ghost use Rattle.limits.specs.Limits.{document_limit, text_bytes};
ghost use Rattle.replay_lines.specs.Format.Line.{beneath};
ghost use Rattle.replay_lines.specs.Answers.{attributes_in, line_in};
ghost use Rattle.replay_session.specs.Session.{tidy_line_text, line_answer};
ghost use Rattle.replay_session.specs.Answers.{marks_in, Makes, Answers};

use document_loads::FrameMarks;
use limits::{DOCUMENTS, TEXT_BYTES};
use replay_lines::{
    AskLine, AttributeRanges, BeneathLine, ForecastLine, FrameLine, Line, TidyLine, TopLine,
};

fn marks(a: AttributeRanges) -> FrameMarks
    ensures { result ≡ marks_in a }
{
    FrameMarks {
        allowfullscreen: a.fullscreen,
        has_sandbox: a.sandbox.stands,
    }
}

fn top_line(run: &mut [u8], l: TopLine, texts: &[u8], out: &mut [u8], at: usize) -> usize
    requires { Valid run.old }
    ensures { Makes (top_load (part_in texts.now l.header) (part_in texts.now l.origin)) run.old run.new out.old at out.new result }
{
    let a = documents::load_top(run, l.origin.of(texts), l.header.of(texts));
    replay_answers::put_load(out, at, a)
}

fn frame_line(run: &mut [u8], l: FrameLine, texts: &[u8], out: &mut [u8], at: usize) -> usize
    requires { Valid run.old }
    ensures { Makes (framed_load l.container (part_in texts.now l.header) (part_in texts.now l.origin) (attributes_in texts.now l.attributes)) run.old run.new out.old at out.new result }
{
    let f = l.attributes;
    let a = documents::load_framed(
        run,
        l.container,
        l.origin.of(texts),
        f.src.of(texts),
        marks(f),
        f.allow.of(texts),
        f.sandbox.text.of(texts),
        l.header.of(texts),
    );
    replay_answers::put_load(out, at, a)
}

fn unload_line(run: &mut [u8], serial: u32, out: &mut [u8], at: usize) -> usize
    requires { Valid run.old }
    ensures { Makes (unload serial) run.old run.new out.old at out.new result }
{
    let a = documents::unload(run, serial);
    replay_answers::put_unload(out, at, a)
}

fn ask_line(run: &[u8], l: AskLine, texts: &[u8], out: &mut [u8], at: usize) -> usize
    requires { Valid run.now }
    ensures { Says out.old at (answer_text (answer_to (question l.serial l.feature (part_in texts.now l.origin)) (view run.now))) out.new result }
{
    let a = documents::question(run, l.serial, l.feature, l.origin.of(texts));
    replay_answers::put_question(out, at, a)
}

fn enabled_line(run: &[u8], serial: u32, out: &mut [u8], at: usize) -> usize
    requires { Valid run.now }
    ensures { Says out.old at (answer_text (answer_to (enabled_features serial) (view run.now))) out.new result }
{
    let a = documents::enabled_features(run, serial);
    replay_answers::put_features(out, at, a)
}

// A listing into lent places.
fn list_into(run: &[u8], serial: u32, places: &mut [u32], out: &mut [u8], at: usize) -> usize
    requires { Valid run.now × (length places.old ≤ document_limit) }
    ensures { Says out.old at (answer_text (answer_to (listing serial places.old) (view run.now))) out.new result }
{
    let a = documents::list_beneath(run, serial, places);
    replay_answers::put_listing(out, at, a, places)
}

// A listing into ROOM places, or as many as there are documents.
fn beneath_line(run: &[u8], l: BeneathLine, out: &mut [u8], at: usize) -> usize
    requires { Valid run.now }
    ensures { Says out.old at (line_answer (beneath l.serial l.room) (view run.now)) out.new result }
{
    let mut places = [0u32; DOCUMENTS];
    let n = (l.room as usize).min(DOCUMENTS);
    list_into(run, l.serial, &mut places[..n], out, at)
}

fn forecast_line(run: &[u8], l: ForecastLine, texts: &[u8], out: &mut [u8], at: usize) -> usize
    requires { Valid run.now }
    ensures { Says out.old at (answer_text (answer_to (forecast_of l.container (attributes_in texts.now l.attributes)) (view run.now))) out.new result }
{
    let f = l.attributes;
    let a = documents::forecast(
        run,
        l.container,
        f.src.of(texts),
        marks(f),
        f.allow.of(texts),
        f.sandbox.text.of(texts),
    );
    replay_answers::put_features(out, at, a)
}

// A tidied form in a lent run.
fn tidy_into(header: &[u8], form: &mut [u8], out: &mut [u8], at: usize) -> usize
    requires { length form.old ≤ text_bytes }
    ensures { Says out.old at (tidy_line_text (tidy_answer header.now (length form.old)) (tidied header.now)) out.new result }
{
    let a = tidying::tidy(header, form);
    replay_answers::put_tidied(out, at, a, form)
}

// A tidied form in ROOM bytes, or as many as the limit allows.
fn tidy_line(l: TidyLine, texts: &[u8], out: &mut [u8], at: usize) -> usize
    ensures { Says out.old at (tidy_line_text (tidy_answer (part_in texts.now l.header) l.room) (tidied (part_in texts.now l.header))) out.new result }
{
    let mut form = [0u8; TEXT_BYTES];
    let n = (l.room as usize).min(TEXT_BYTES);
    tidy_into(l.header.of(texts), &mut form[..n], out, at)
}

// A line's answer, put at a place of a lent run; and the table in its own run.
pub fn answer(run: &mut [u8], line: Option<Line>, texts: &[u8], out: &mut [u8], at: usize) -> usize
    requires { Valid run.old }
    ensures { Answers (line_in texts.now line) run.old run.new out.old at out.new result }
{
    let Some(line) = line else {
        return replay_answers::put_bad_line(out, at);
    };
    match line {
        Line::Top(l) => top_line(run, l, texts, out, at),
        Line::Frame(l) => frame_line(run, l, texts, out, at),
        Line::Unload(serial) => unload_line(run, serial, out, at),
        Line::Ask(l) => ask_line(run, l, texts, out, at),
        Line::Enabled(serial) => enabled_line(run, serial, out, at),
        Line::Beneath(l) => beneath_line(run, l, out, at),
        Line::Forecast(l) => forecast_line(run, l, texts, out, at),
        Line::Tidy(l) => tidy_line(l, texts, out, at),
    }
}
