// Short-form directories: document 004's dumps, the room of a 256-byte inode, widths, a tag gap, and each refusal.
#![tactic(auto)]

use dir::{Looked, Seen};
use refusal::Refusal;

// The process's own streams, by the numbers that the system gives them.
const STDOUT_FILENO: i32 = 1;

// Kept: each program has these lines; a crate of them would promise nothing, since no contract can speak of what is written.
fn say(word: &[u8]) {
    io::write_all(STDOUT_FILENO, word);
}

// One number, after a space.
fn number(n: u64) {
    say(b" ");
    io::print_decimal(STDOUT_FILENO, n);
}

fn count(n: usize) {
    number(n as u64);
}

// A refusal's number.
fn refused(r: Refusal) {
    say(b" refused");
    number(r.number() as u64);
}

// A test's or a change's number: 0 when nothing is refused.
fn answer(r: Result<(), Refusal>) {
    match r {
        Ok(()) => number(0),
        Err(r) => number(r.number() as u64),
    }
}

fn line() {
    say(b"\n");
}

// 1 where two runs of bytes are equal.
fn same<'a, 'b>(a: &'a [u8], b: &'b [u8]) {
    number((a == b) as u64);
}

fn look<'a, 'b>(b: &'a [u8], name: &'b [u8]) {
    say(b"lookup");
    match dir_sf::lookup(b, 4096, name) {
        Ok(
            Looked::Found {
                target,
                tag,
                compared,
            },
        ) => {
            number(target.inode);
            count(tag);
        }
        Ok(Looked::Absent { compared }) => refused(Refusal::Absent),
        Err(r) => refused(r),
    }
    line();
}

fn step(b: &[u8], place: usize) {
    say(b"step");
    match dir_sf::step_at(b, 4096, place) {
        Ok(s) => {
            count(s.next);
            match s.seen {
                Seen::Live(x) => {
                    number(x.target.inode);
                    count(x.tag);
                    count(x.start);
                    count(x.len);
                }
                Seen::Gap => say(b" gap"),
                Seen::End => say(b" end"),
            }
        }
        Err(r) => refused(r),
    }
    line();
}

// The inode core that both dumps of 004 share, times left out: version 1, local, a directory.
fn inode() -> [u8; 256] {
    let mut b = [0u8; 256];
    be::copy_into(&mut b, 0, b"\x49\x4e\x41\xed\x01\x01\x00\x02");
    be::copy_into(&mut b, 96, b"\xff\xff\xff\xff");
    b
}

// An inode with the used bytes of a directory.
fn with_used(u: &[u8]) -> [u8; 256] {
    let mut b = inode();
    be::put64(&mut b, dinode::SIZE_PLACE, u.len() as u64);
    if u.len() <= 156 {
        be::copy_into(&mut b, 100, u);
    }
    b
}

// No entries, under inode 128.
fn empty() -> [u8; 256] {
    with_used(b"\x00\x00\x00\x00\x00\x80")
}

// The first dump: four entries, size 94.
fn first_dump() -> [u8; 256] {
    with_used(
        b"\x04\x00\x00\x00\x00\x80\x0f\x000frame000000.tst\x01\x80\x00\x81\x0f\x00Pframe000001.tst\x01\x80\x00\x82\x0f\x00pframe000002.tst\x01\x80\x00\x83\x0f\x00\x90frame000003.tst\x01\x80\x00\x84",
    )
}

// The second dump: the second entry is gone, size 72; the last entry's old bytes still stand behind.
fn second_dump() -> [u8; 256] {
    let mut b = with_used(
        b"\x03\x00\x00\x00\x00\x80\x0f\x000frame000000.tst\x01\x80\x00\x81\x0f\x00pframe000002.tst\x01\x80\x00\x83\x0f\x00\x90frame000003.tst\x01\x80\x00\x84",
    );
    be::copy_into(&mut b, 172, b"\x0f\x00\x90frame000003.tst\x01\x80\x00\x84");
    b
}

fn lookups(b: &[u8]) {
    look(b, b"frame000001.tst");
    look(b, b"..");
    look(b, b".");
    look(b, b"frame000004.tst");
}

fn steps(b: &[u8]) {
    step(b, 6);
    step(b, 28);
    step(b, 50);
    step(b, 72);
    step(b, 94);
    step(b, 7);
}

// The test's answer and the size.
fn dump(b: &[u8; 256]) {
    say(b"dump");
    answer(dir_sf::test(b, 4096));
    number(be::be64(b, dinode::SIZE_PLACE));
    line();
}

fn dumps() {
    let b = first_dump();
    dump(&b);
    lookups(&b);
    steps(&b);
    dump(&second_dump());
}

// Whether two inodes have the same bytes from a place to another.
fn compare<'a, 'b>(b: &'a [u8], d: &'b [u8], from: usize, to: usize) {
    if from <= to && to <= b.len() && to <= d.len() {
        same(&b[from..to], &d[from..to]);
    }
}

// The removal between the dumps: answer, test and size, then each part of the inode as it has to be; the rest of the fork is zero.
fn removal() {
    let mut b = first_dump();
    say(b"remove");
    answer(dir_sf_edit::remove(&mut b, 4096, b"frame000001.tst"));
    answer(dir_sf::test(&b, 4096));
    number(be::be64(&b, dinode::SIZE_PLACE));
    let d = second_dump();
    compare(&b, &d, dinode::SIZE_PLACE, dinode::SIZE_PLACE + 8);
    compare(&b, &d, 100, 172);
    compare(&b, &d, 0, dinode::SIZE_PLACE);
    compare(&b, &d, 64, 100);
    same(&b[172..256], &[0u8; 84]);
    line();
}

// A 256-byte inode without attributes holds six such entries, not seven.
fn six() {
    let mut b = empty();
    say(b"six");
    answer(dir_sf_edit::insert(&mut b, 4096, b"frame000000.tst", 25165953));
    answer(dir_sf_edit::insert(&mut b, 4096, b"frame000001.tst", 25165954));
    answer(dir_sf_edit::insert(&mut b, 4096, b"frame000002.tst", 25165955));
    answer(dir_sf_edit::insert(&mut b, 4096, b"frame000003.tst", 25165956));
    same(&b[106..194], &first_dump()[106..194]);
    answer(dir_sf_edit::insert(&mut b, 4096, b"frame000004.tst", 25165957));
    answer(dir_sf_edit::insert(&mut b, 4096, b"frame000005.tst", 25165958));
    number(be::be64(&b, dinode::SIZE_PLACE));
    answer(dir_sf_edit::insert(&mut b, 4096, b"frame000006.tst", 25165959));
    number(be::be64(&b, dinode::SIZE_PLACE));
    line();
}

// The first wide entry in, the last one out.
fn widths() {
    let mut b = empty();
    say(b"widths");
    answer(dir_sf_edit::insert(&mut b, 4096, b"a", 5));
    same(
        &b[100..114],
        b"\x01\x00\x00\x00\x00\x80\x01\x000a\x00\x00\x00\x05",
    );
    answer(dir_sf_edit::insert(&mut b, 4096, b"w", 4294967296));
    same(
        &b[100..134],
        b"\x02\x01\x00\x00\x00\x00\x00\x00\x00\x80\x01\x000a\x00\x00\x00\x00\x00\x00\x00\x05\x01\x00@w\x00\x00\x00\x01\x00\x00\x00\x00",
    );
    number(be::be64(&b, dinode::SIZE_PLACE));
    answer(dir_sf_edit::remove(&mut b, 4096, b"w"));
    number(be::be64(&b, dinode::SIZE_PLACE));
    same(
        &b[100..114],
        b"\x01\x00\x00\x00\x00\x80\x01\x000a\x00\x00\x00\x05",
    );
    same(&b[114..256], &[0u8; 142]);
    line();
}

// One wide entry under a wide parent: both count, and the directory is still wide when the entry is out.
fn wide_parent() {
    let mut b = with_used(
        b"\x01\x02\x00\x00\x00\x01\x00\x00\x00\x00\x01\x000w\x00\x00\x00\x01\x00\x00\x00\x00",
    );
    say(b"wide parent");
    answer(dir_sf::test(&b, 4096));
    answer(dir_sf_edit::remove(&mut b, 4096, b"w"));
    number(be::be64(&b, dinode::SIZE_PLACE));
    same(&b[100..110], b"\x00\x01\x00\x00\x00\x01\x00\x00\x00\x00");
    same(&b[110..256], &[0u8; 146]);
    answer(dir_sf::test(&b, 4096));
    answer(dir_sf_edit::insert(&mut b, 4096, b"a", 5));
    same(
        &b[100..122],
        b"\x01\x01\x00\x00\x00\x01\x00\x00\x00\x00\x01\x000a\x00\x00\x00\x00\x00\x00\x00\x05",
    );
    line();
}

// A 512-byte inode, and a block of 512 bytes to go into: after three names of 100 bytes a name of 61 would fit at the end, one of 62 not.
fn three() -> [u8; 512] {
    let mut b = [0u8; 512];
    be::copy_into(&mut b, 0, &empty());
    answer(dir_sf_edit::insert(&mut b, 512, &[97u8; 100], 1));
    answer(dir_sf_edit::insert(&mut b, 512, &[98u8; 100], 2));
    answer(dir_sf_edit::insert(&mut b, 512, &[99u8; 100], 3));
    b
}

// The gap that the first one leaves holds E of 101 bytes and not of 102.
fn gap() {
    say(b"gap");
    let mut b = three();
    answer(dir_sf_edit::insert(&mut b, 512, &[100u8; 62], 4));
    answer(dir_sf_edit::remove(&mut b, 512, &[97u8; 100]));
    answer(dir_sf_edit::insert(&mut b, 512, &[100u8; 102], 4));
    answer(dir_sf_edit::insert(&mut b, 512, &[100u8; 101], 4));
    count(be::be16(&b, 107));
    count(be::be8(&b, 109));
    number(be::be64(&b, dinode::SIZE_PLACE));
    answer(dir_sf::test(&b, 512));
    line();
}

// Tests 1 to 10, each by an inode that fails it.
fn tested(u: &[u8]) {
    let b = with_used(u);
    answer(dir_sf::test(&b, 4096));
}

fn set(b: &mut [u8], at: usize, v: usize) {
    if at < b.len() {
        be::put8(b, at, v);
    }
}

// The empty directory with one byte of its inode changed.
fn changed(at: usize, v: usize) {
    let mut b = empty();
    set(&mut b, at, v);
    answer(dir_sf::test(&b, 4096));
}

fn cores() {
    say(b"tests");
    answer(dir_sf::test(&empty(), 500));
    answer(dir_sf::test(&[0u8; 255], 4096));
    changed(1, 0);
    changed(4, 3);
    changed(5, 2);
    changed(82, 20);
    changed(82, 19);
}

fn refusals() {
    cores();
    // size under the header; a tag below 48; a name with "/"; number 0; i8count too high, a wide parent not counted; a name twice
    tested(b"\x00\x00\x00\x00\x00");
    tested(b"\x01\x00\x00\x00\x00\x80\x01\x00(a\x00\x00\x00\x05");
    tested(b"\x01\x00\x00\x00\x00\x80\x01\x000/\x00\x00\x00\x05");
    tested(b"\x01\x00\x00\x00\x00\x80\x01\x000a\x00\x00\x00\x00");
    tested(b"\x01\x02\x00\x00\x00\x00\x00\x00\x00\x80\x01\x000a\x00\x00\x00\x01\x00\x00\x00\x00");
    tested(b"\x01\x01\x00\x00\x00\x01\x00\x00\x00\x00\x01\x000w\x00\x00\x00\x01\x00\x00\x00\x00");
    tested(b"\x02\x00\x00\x00\x00\x80\x01\x000a\x00\x00\x00\x05\x01\x00@a\x00\x00\x00\x06");
    line();
}

// Requests that are refused: 11 for a name, a number and a place, then 12 to 15; the inode stays as it was.
fn requests() {
    let mut b = first_dump();
    say(b"requests");
    answer(dir_sf_edit::insert(&mut b, 4096, b"", 5));
    answer(dir_sf_edit::insert(&mut b, 4096, b"a/b", 5));
    answer(dir_sf_edit::insert(&mut b, 4096, b"a", 0));
    answer(dir_sf_edit::insert(&mut b, 4096, b"..", 5));
    answer(dir_sf_edit::insert(&mut b, 4096, b"frame000002.tst", 5));
    answer(dir_sf_edit::insert(&mut b, 4096, &[97u8; 60], 5));
    line();
    say(b"removals");
    answer(dir_sf_edit::remove(&mut b, 4096, b""));
    answer(dir_sf_edit::remove(&mut b, 4096, b"."));
    answer(dir_sf_edit::remove(&mut b, 4096, b"a"));
    same(&b, &first_dump());
    line();
}

fn main() {
    dumps();
    removal();
    six();
    widths();
    wide_parent();
    gap();
    refusals();
    requests();
}
