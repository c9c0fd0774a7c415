// Lists a block directory: reads one block from standard input, writes the listing or "refused " and the number.
#![tactic(auto)]

ghost use Rattle.std.specs.Prelude.{◌≡◌, ◌++◌, ◌+◌, ◌≤◌, ◌<◌, length};
ghost use Rattle.io.specs.Counts.{IsPrefixLen};
ghost use Rattle.edition.specs.Edition.{Sane, largest_block};
ghost use Rattle.refusal.specs.Refusal.{code};
ghost use Rattle.dir_block_rules.specs.Verdict.{verdict};
ghost use Rattle.dir_block_laws.specs.Tiled.{Ready};

use dir::{Entry, Seen};
use edition::{Edition, V4};
use refusal::Refusal;

// The process's own streams, by the numbers that the system gives them.
const STDIN_FILENO: i32 = 0;

const STDOUT_FILENO: i32 = 1;

// How many bytes are kept before they are written.
const BUFFER: usize = 8192;

// Text on its way out: what is kept is written when the next piece does not fit.
#[derive(Drop)]
struct Lines {
    kept: [u8; BUFFER],
    used: usize,
    ghost fits: { used ≤ 8192 },
}

// A hexadecimal digit.
fn digit(n: u8) -> u8
    requires { n < 16 }
{
    if n < 10 { n + 48 } else { n + 87 }
}

// The bytes of s in hexadecimal, at the start of out: how many digits.
fn hex_of(s: &[u8], out: &mut [u8; 512]) -> usize
    requires { (length s.now < 256) × (length out.old ≡ 512) }
    ensures { IsPrefixLen result out.new }
{
    for i in 0..s.len() {
        out[2 * i] = digit(s[i] / 16);
        out[2 * i + 1] = digit(s[i] % 16);
    }
    2 * s.len()
}

impl Lines {
    fn new() -> Lines {
        Lines {
            kept: [0; BUFFER],
            used: 0,
        }
    }

    // Writes what is kept.
    fn flush(&mut self) {
        io::write_all(STDOUT_FILENO, &self.kept[..self.used]);
        self.used = 0;
    }

    // A piece of text. What is longer than all that can be kept is written by itself.
    fn text(&mut self, s: &[u8]) {
        let n = s.len();
        if BUFFER - self.used < n {
            self.flush();
        }
        if BUFFER - self.used < n {
            io::write_all(STDOUT_FILENO, s);
            return;
        }
        be::copy_into(&mut self.kept, self.used, s);
        self.used += n;
    }

    // A label and a number.
    fn number(&mut self, label: &[u8], v: u64) {
        let mut digits = [0u8; 20];
        let k = io::decimal(v, &mut digits);
        self.text(label);
        self.text(&digits[..k]);
    }

    // A space and 8 hexadecimal digits.
    fn hash(&mut self, v: u64) {
        let mut digits = [0u8; 16];
        let k = io::hex(v, 8, &mut digits);
        self.text(b" ");
        self.text(&digits[..k]);
    }

    // A space and a name's bytes in hexadecimal, as one piece.
    fn name(&mut self, s: &[u8])
        requires { length s.now < 256 }
    {
        let mut digits = [0u8; 512];
        let k = hex_of(s, &mut digits);
        self.text(b" ");
        self.text(&digits[..k]);
    }

    // A live entry's line: tag, inode number, hash, name.
    fn entry(&mut self, e: Edition, b: &[u8], entry: Entry)
        requires { (entry.start + entry.len ≤ length b.now) × (entry.len < 256) }
    {
        let from = entry.start;
        let end = from + entry.len;
        let name = &b[from..end];
        self.number(b"", entry.tag as u64);
        self.number(b" ", entry.target.inode);
        self.hash(name::hash(e, name) as u64);
        self.name(name);
        self.text(b"\n");
    }

    // The first line: the block's length, its live entries and its stale slots.
    fn head(&mut self, e: Edition, b: &[u8])
        requires { Sane e × Ready e b.now }
    {
        let len = b.len();
        let count = be::be32(b, len - 8);
        let stale = be::be32(b, len - 4);
        self.number(b"block ", len as u64);
        self.number(b" live ", (count - stale) as u64);
        self.number(b" stale ", stale as u64);
        self.text(b"\n");
    }
}

// The lines of a tested block.
fn listing(e: Edition, b: &[u8])
    requires { Sane e × Ready e b.now }
{
    let mut lines = Lines::new();
    lines.head(e, b);
    let end = dir_block_lookup::end_of_data(e, b);
    let mut p = e.header;
    while p < end {
        let s = dir_block_lookup::step_ready(e, b, end, p);
        if let Seen::Live(entry) = s.seen {
            lines.entry(e, b, entry);
        }
        p = s.next;
    }
    lines.flush();
}

fn refused(refusal: Refusal) {
    let mut lines = Lines::new();
    lines.number(b"refused ", refusal.number() as u64);
    lines.text(b"\n");
    lines.flush();
}

// Whether what was read is refused: b, and the bytes after it. Only a full buffer can have bytes after it, and then the whole is too long.
fn check<'a, 'b>(e: Edition, b: &'a [u8], more: &'b [u8]) -> Result<(), Refusal>
    requires { Sane e × (length b.now < largest_block → length more.now ≡ 0) }
    ensures { code result ≡ verdict e (b.now ++ more.now) }
{
    if more.len() == 0 {
        return dir_block_test::check(e, b);
    }
    Err(Refusal::Size)
}

fn answer<'a, 'b>(e: Edition, b: &'a [u8], more: &'b [u8])
    requires { Sane e × (length b.now < largest_block → length more.now ≡ 0) }
{
    match check(e, b, more) {
        Ok(()) => listing(e, b),
        Err(refusal) => refused(refusal),
    }
}

// How many bytes come behind the first n, as many as `more` has room for at most. None is asked for unless the n filled their buffer.
fn probe(n: usize, full: usize, more: &mut [u8]) -> usize
    ensures prefix_len { IsPrefixLen result more.new }
    ensures value { n < full → result ≡ 0 }
{
    if n < full {
        return 0;
    }
    io::read_full(STDIN_FILENO, more)
}

fn main() {
    let mut buffer = io::large_buffer();
    let n = io::read_full(STDIN_FILENO, &mut buffer);
    let mut more = [0u8; 1];
    let k = probe(n, buffer.len(), &mut more);
    answer(V4::edition(), &buffer[..n], &more[..k]);
}
