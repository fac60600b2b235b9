// Document 01's cases about tidying, with 02's R-4, and one of R-3, over the library's call: the limits, the order of the refusals, and every lent byte.
#![tactic(auto)]

ghost use Rattle.std.specs.Prelude.{◌<◌};

use std::io;

// The lent runs hold this byte before a call; no tidied form has it.
const OLD: u8 = b'#';

fn put(rt: &impl Print, s: &[u8]) -> io::Result<()> {
    rt.write_all(s)
}

// How many bytes of a run are the old ones.
fn old_bytes(run: &[u8]) -> usize {
    run.iter().filter(|b| **b == OLD).count()
}

// A header that grows, as far as there is room.
#[derive(Drop)]
struct Header {
    bytes: [u8; 4200],
    len: usize,
}

impl Header {
    fn new() -> Header {
        Header {
            bytes: [b' '; 4200],
            len: 0,
        }
    }

    fn text(&self) -> &[u8] {
        ascii::part(&self.bytes, 0, self.len)
    }

    // Adds a text, as much of it as has room.
    fn push(&mut self, t: &[u8]) {
        let from = self.len.min(4200);
        let n = t.len().min(4200 - from);
        self.bytes[from..from + n].copy_from_slice(&t[..n]);
        self.len = from + n;
    }

    // Adds a byte so many times, as often as has room.
    fn repeat(&mut self, b: u8, times: usize) {
        let from = self.len.min(4200);
        let n = times.min(4200 - from);
        self.bytes[from..from + n].fill(b);
        self.len = from + n;
    }

    // Adds an expression whose host is so many bytes of one letter.
    fn push_expression(&mut self, letter: u8, length: usize) {
        self.push(b"\"https://");
        self.repeat(letter, length);
        self.push(b"\"");
    }

    // Adds two expressions, of two letters.
    fn push_pair(&mut self, letter: u8, first: usize, second: usize)
        requires { letter < 255 }
    {
        self.push_expression(letter, first);
        self.push(b" ");
        self.push_expression(letter + 1, second);
    }

    // Adds four expressions with the longest hosts, of four letters, and a space behind each pair.
    fn push_four(&mut self, letter: u8)
        requires { letter < 253 }
    {
        self.push_pair(letter, 253, 253);
        self.push(b" ");
        self.push_pair(letter + 2, 253, 253);
        self.push(b" ");
    }

    // `camera=(` and twelve expressions: 8 + 12 * 264 bytes.
    fn push_twelve(&mut self) {
        self.push(b"camera=(");
        self.push_four(b'a');
        self.push_four(b'e');
        self.push_four(b'i');
    }

    // camera with sixteen expressions, the thirteenth with a host of so many bytes and those after it with hosts of so many: 3,176 + 43 + 1 bytes and these.
    fn push_camera(&mut self, first: usize, others: usize) {
        self.push_twelve();
        self.push_pair(b'm', first, others);
        self.push(b" ");
        self.push_pair(b'o', others, others);
        self.push(b")");
    }
}

// Tidies a header into a lent run of so many bytes, and tells the answer, how many lent bytes are unchanged, and the text where it is short.
fn tidy_into(rt: &impl Print, name: &[u8], header: &[u8], run: &mut [u8]) -> io::Result<()> {
    put(rt, name)?;
    put(rt, b": ")?;
    match tidying::tidy(header, run) {
        Ok(n) => {
            put(rt, b"length ")?;
            rt.print(n)?;
            if n < 64 {
                put(rt, b", ")?;
                put(rt, ascii::part(run, 0, n))?;
            }
        }
        Err(r) => {
            put(rt, b"refused ")?;
            rt.print(limits::refusal_number(r))?;
        }
    }
    put(rt, b", unchanged ")?;
    rt.print(old_bytes(run))?;
    put(rt, b"\n")
}

// With a run that is long enough for every tidied form.
fn tidy_wide(rt: &impl Print, name: &[u8], header: &[u8]) -> io::Result<()> {
    let mut run = [OLD; 4200];
    tidy_into(rt, name, header, &mut run)
}

fn short_runs(rt: &impl Print) -> io::Result<()> {
    let mut none = [OLD; 0];
    tidy_into(rt, b"nothing into a run of 0", b"", &mut none)?;
    tidy_into(rt, b"camera=* into a run of 0", b"camera=*", &mut none)?;
    tidy_into(rt, b"malformed into a run of 0", b"camera=(", &mut none)?;
    let mut seven = [OLD; 7];
    tidy_into(rt, b"camera=* into a run of 7", b"camera=*", &mut seven)?;
    let mut eight = [OLD; 8];
    tidy_into(rt, b"camera=* into a run of 8", b"camera=*", &mut eight)
}

// `camera=*` and spaces, so many bytes in all.
fn spaces(rt: &impl Print, name: &[u8], length: usize) -> io::Result<()> {
    let mut header = Header::new();
    header.push(b"camera=*");
    let written = header.len;
    header.repeat(b' ', length.saturating_sub(written));
    tidy_wide(rt, name, header.text())
}

// 02, R-4: 4,096 bytes for a tidied form. Here it is the header itself, into runs of several lengths.
fn longest_form(rt: &impl Print) -> io::Result<()> {
    let mut header = Header::new();
    header.push_camera(219, 219);
    let text = header.text();
    tidy_wide(rt, b"a form of 4096", text)?;
    let mut short = [OLD; 4095];
    tidy_into(rt, b"a form of 4096 into a run of 4095", text, &mut short)?;
    let mut enough = [OLD; 4096];
    tidy_into(rt, b"a form of 4096 into a run of 4096", text, &mut enough)
}

// A header of 4,096 bytes whose form has a space more.
fn longer_form(rt: &impl Print) -> io::Result<()> {
    let mut header = Header::new();
    header.push_camera(219, 217);
    header.push(b",usb=*");
    let text = header.text();
    tidy_wide(rt, b"a form of 4097", text)?;
    let mut none = [OLD; 0];
    tidy_into(rt, b"a form of 4097 into a run of 0", text, &mut none)
}

fn main(rt: HostRuntime) -> io::Result<()> {
    tidy_wide(
        &rt,
        b"the example",
        b"usb=self,camera=(\"https://B.example:443\" self \"https://b.example\"),foo=1,forms=(self *)",
    )?;
    tidy_wide(&rt, b"the empty header", b"")?;
    tidy_wide(&rt, b"a final line feed", b"camera=*\n")?;
    tidy_wide(&rt, b"nothing known", b"foo=1, camera=1")?;
    tidy_wide(
        &rt,
        b"ports and repeats",
        b"usb=(\"http://x:0443\" \"http://X:443\" \"https:\" self;a)",
    )?;
    tidy_wide(
        &rt,
        b"ports of both schemes",
        b"camera=(\"http://A:0080\" \"http://a\" \"http://a:80\" \"https://a:443\" \"https://a\")",
    )?;
    spaces(&rt, b"4096 bytes", 4096)?;
    spaces(&rt, b"4097 bytes", 4097)?;
    short_runs(&rt)?;
    longest_form(&rt)?;
    longer_form(&rt)
}
