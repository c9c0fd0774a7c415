// Runs the block directory's calls on the block that document 004 dumps (standard input): its lookups, its walk, a walker, the block
// after the removal that 004 shows, and a block for each refusal.
#![tactic(auto)]

use dir::{Looked, Seen, Step};
use refusal::Refusal;

// The process's own streams, by the numbers that the system gives them.
const STDIN_FILENO: i32 = 0;

const STDOUT_FILENO: i32 = 1;

// Kept: each program has these lines; a crate of them would promise nothing, since no contract can speak of what is written.
fn text(s: &[u8]) {
    io::write_all(STDOUT_FILENO, s);
}

fn number(n: u64) {
    text(b" ");
    io::print_decimal(STDOUT_FILENO, n);
}

// A refusal's number.
fn refused(r: Refusal) {
    text(b" refused");
    number(r.number() as u64);
}

// The verdict on a block: 0, or the refusal's number.
fn test(label: &[u8], b: &[u8]) {
    text(label);
    match dir_block_test::test(b) {
        Ok(()) => number(0),
        Err(r) => number(r.number() as u64),
    }
    text(b"\n");
}

// A lookup: number, tag and names compared, or the refusal.
fn look(b: &[u8], name: &[u8]) {
    text(b"lookup ");
    text(name);
    match dir_block_lookup::lookup(b, name) {
        Ok(
            Looked::Found {
                target,
                tag,
                compared,
            },
        ) => {
            number(target.inode);
            number(tag as u64);
            number(compared as u64);
        }
        Ok(Looked::Absent { compared }) => {
            text(b" absent");
            number(compared as u64);
        }
        Err(r) => refused(r),
    }
    text(b"\n");
}

fn seen(s: Step) {
    let what = s.seen;
    match what {
        Seen::Live(n) => {
            text(b" live");
            number(n.target.inode);
            number(n.tag as u64);
            number(n.start as u64);
            number(n.len as u64);
        }
        Seen::Gap => text(b" gap"),
        Seen::End => text(b" end"),
    }
    text(b" next");
    number(s.next as u64);
}

// What a step answers, and where it leads.
fn answer(w: Result<Step, Refusal>) -> usize {
    match w {
        Ok(s) => {
            seen(s);
            text(b"\n");
            s.next
        }
        Err(r) => {
            refused(r);
            text(b"\n");
            0
        }
    }
}

// One step of the walk: where it then stands.
fn step(b: &[u8], p: usize) -> usize {
    text(b"step");
    number(p as u64);
    answer(dir_block_lookup::step(b, p))
}

// What a walker meets at a place, and after some steps.
fn walker_at(b: &[u8], p: usize) {
    text(b"walker at");
    number(p as u64);
    answer(dir_block_walker::step_from(b, p));
}

fn walker_after(b: &[u8], steps: usize) {
    text(b"walker after");
    number(steps as u64);
    answer(dir_block_walker::nth(b, steps));
}

fn walker(b: &[u8]) {
    walker_at(b, 304);
    walker_at(b, 24);
    walker_after(b, 0);
    walker_after(b, 1);
    walker_after(b, 10);
    walker_after(b, 12);
    walker_after(b"X", 2);
}

// The walk from the start: as many steps as there are records, plus one.
fn walk(b: &[u8], steps: usize) {
    let mut p = 16;
    for _ in 0..steps {
        p = step(b, p);
    }
}

// The block with one byte changed.
fn with(b: [u8; 4096], o: usize, v: u8) -> [u8; 4096] {
    let mut c = b;
    if o < 4096 {
        c[o] = v;
    }
    c
}

// What 004 shows after frame000004.tst is removed: a gap of 32 at 0xb0, its pair, its slot stale.
fn removed(b: [u8; 4096]) -> [u8; 4096] {
    let mut c = b;
    be::copy_into(&mut c, 8, b"\x00\xb0\x00\x20");
    be::copy_into(&mut c, 0xb0, b"\xff\xff\x00\x20");
    be::copy_into(&mut c, 0xfec, b"\x00\x00\x00\x00");
    be::copy_into(&mut c, 0xffc, b"\x00\x00\x00\x01");
    c
}

// A block for each refusal.
fn refusals(b: [u8; 4096]) {
    test(b"one byte", b"X");
    test(b"magic", &with(b, 3, 0x33));
    test(b"count", &with(b, 0xffa, 0x10));
    test(b"stale over count", &with(b, 0xfff, 0x0b));
    test(b"tag", &with(b, 0x4f, 0x31));
    test(b"gap length", &with(b, 0x133, 0x70));
    test(b"zero byte in a name", &with(b, 0x3a, 0));
    test(b"slash in a name", &with(b, 0x3a, 47));
    test(b"name length 0", &with(with(b, 0x18, 0), 0x19, 46));
    test(b"number 0", &with(with(b, 0x34, 0), 0x37, 0));
    test(b"number over 56 bits", &with(b, 0x30, 1));
    test(b"hash", &with(b, 0xfab, 0x2f));
    test(b"address", &with(b, 0xfaf, 3));
    test(b"stale count", &with(b, 0xfff, 1));
    test(b"best gap", &with(b, 6, 0x0d));
    test(b"a second best gap", &with(b, 9, 0x30));
    test(b"a name twice", &with(with(b, 0x63, 48), 0xfd0, 0xa3));
}

fn cases(b: [u8; 4096]) {
    test(b"dump", &b);
    look(&b, b".");
    look(&b, b"frame000000.tst");
    look(&b, b"frame000004.tst");
    look(&b, b"frame000008.tst");
    look(&b, b"frame/");
    walk(&b, 12);
    step(&b, 24);
    walker(&b);
    let c = removed(b);
    test(b"removed", &c);
    look(&c, b"frame000003.tst");
    look(&c, b"frame000004.tst");
    step(&c, 0xb0);
    refusals(b);
    look(&with(b, 0x4f, 0x31), b"/");
}

fn blank() -> [u8; 4096] {
    [0; 4096]
}

fn main() {
    let mut b = blank();
    io::read_full(STDIN_FILENO, &mut b);
    cases(b);
}
