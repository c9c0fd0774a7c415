// Runs insert and removal: the papers' cases C1 to C6, and long sequences of mixed calls, each answer compared with a book that
// the program keeps and with the room rule computed apart from the library.
#![tactic(auto)]

ghost use Rattle.std.specs.Prelude.{◌≡◌, ◌+◌, ◌<◌, ◌≤◌, length};

use dir::Looked;
use refusal::Refusal;

// The process's own streams, by the numbers that the system gives them.
const STDOUT_FILENO: i32 = 1;

// Kept: each program has these lines; a crate of them would promise nothing, since no contract can speak of what is written.
fn text(s: &[u8]) {
    io::write_all(STDOUT_FILENO, s);
}

fn number(n: u64) {
    text(b" ");
    io::print_decimal(STDOUT_FILENO, n);
}

// A call's number: 0 when nothing is refused.
fn answer(done: Result<(), Refusal>) {
    number(u64::from(Refusal::code(done)));
}

// ---- a block with only "." and "..", both of inode 128

fn put_dot(b: &mut [u8], o: usize, name: &[u8])
    requires { (o + 16 ≤ length b.old) × (length name.now < 6) }
{
    be::put64(b, o, 128);
    be::put8(b, o + 8, name.len());
    be::copy_into(b, o + 9, name);
    be::put16(b, o + 14, o);
}

fn put_index(b: &mut [u8])
    requires { 512 ≤ length b.old }
{
    let n = b.len();
    be::put32(b, n - 24, 0x2e);
    be::put32(b, n - 20, 2);
    be::put32(b, n - 16, 0x172e);
    be::put32(b, n - 12, 4);
    be::put32(b, n - 8, 2);
}

// The gap behind the two entries.
fn put_free(b: &mut [u8])
    requires { 512 ≤ length b.old }
{
    let n = b.len();
    be::put16(b, 4, 48);
    be::put16(b, 6, n - 72);
    be::put16(b, 48, 65535);
    be::put16(b, 50, n - 72);
    be::put16(b, n - 26, 48);
}

fn fresh(b: &mut [u8])
    requires { 512 ≤ length b.old }
{
    let n = b.len();
    be::zero(b, 0, n);
    be::put32(b, 0, 0x58443242);
    put_dot(b, 16, b".");
    put_dot(b, 32, b"..");
    put_free(b);
    put_index(b);
}

// ---- C1 to C6

// The first best-gap pair, the slots and the stale ones.
fn show(b: &[u8])
    requires { 512 ≤ length b.now }
{
    let n = b.len();
    text(b" gap");
    number(be::be16(b, 4) as u64);
    number(be::be16(b, 6) as u64);
    text(b" slots");
    number(be::be32(b, n - 8) as u64);
    text(b" stale");
    number(be::be32(b, n - 4) as u64);
    text(b"\n");
}

fn insert(b: &mut [u8], name: &[u8], inode: u64)
    requires { 512 ≤ length b.old }
{
    text(b"insert");
    number(name.len() as u64);
    text(b":");
    answer(dir_block_edit::insert(b, name, inode));
    show(&b[..]);
}

fn remove(b: &mut [u8], name: &[u8])
    requires { 512 ≤ length b.old }
{
    text(b"remove");
    number(name.len() as u64);
    text(b":");
    answer(dir_block_edit::remove(b, name));
    show(&b[..]);
}

fn start(b: &mut [u8], label: &[u8])
    requires { 512 ≤ length b.old }
{
    fresh(b);
    text(label);
    answer(dir_block_test::test(&b[..]));
    show(&b[..]);
}

// An insert of the first k bytes of x.
fn insert_part(b: &mut [u8], x: &[u8], k: usize)
    requires { (512 ≤ length b.old) × (k ≤ length x.now) }
{
    insert(b, &x[..k], 200);
}

fn remove_part(b: &mut [u8], x: &[u8], k: usize)
    requires { (512 ≤ length b.old) × (k ≤ length x.now) }
{
    remove(b, &x[..k]);
}

fn cases_1_to_3(b: &mut [u8])
    requires { 512 ≤ length b.old }
{
    start(b, b"C1");
    text(b"C2 ");
    insert(b, b"a", 131);
    text(b"C3 ");
    remove(b, b"a");
}

fn case_4(b: &mut [u8], x: &[u8])
    requires { (512 ≤ length b.old) × (255 ≤ length x.now) }
{
    start(b, b"C4");
    insert_part(b, x, 255);
    insert_part(b, x, 142);
    insert_part(b, x, 141);
}

fn case_5(b: &mut [u8], x: &[u8])
    requires { (512 ≤ length b.old) × (255 ≤ length x.now) }
{
    start(b, b"C5");
    insert_part(b, x, 255);
    insert_part(b, x, 1);
    insert_part(b, x, 117);
    remove_part(b, x, 117);
    remove_part(b, x, 1);
    insert_part(b, x, 142);
    insert_part(b, x, 141);
}

// As many names of two bytes as go in.
fn fill(b: &mut [u8]) -> u64
    ensures { result ≤ 400 }
{
    for i in 0..400 {
        let name = [(97 + i / 20) as u8, (97 + i % 20) as u8];
        if dir_block_edit::insert(b, &name, 7).is_err() {
            return i;
        }
    }
    400
}

fn most(b: &mut [u8])
    requires { 512 ≤ length b.old }
{
    fresh(b);
    text(b"C6 live");
    number(fill(b) + 2);
    show(&b[..]);
}

// ---- the room rule, computed apart from the library

// The lengths of T and of the longest gap other than T.
#[derive(Clone, Copy)]
struct Lengths {
    last: usize,
    other: usize,
}

// The bytes of the record at o.
fn record(b: &[u8], o: usize) -> usize
    requires { o + 9 ≤ length b.now }
    ensures { result < 65536 }
{
    if be::be16(b, o) == 65535 {
        return be::be16(b, o + 2);
    }
    (be::be8(b, o + 8) + 18) / 8 * 8
}

// A gap of l bytes more, that ends at the data's end or not.
fn with_gap(g: Lengths, l: usize, touches: bool) -> Lengths {
    if touches {
        return Lengths {
            last: l,
            other: g.other,
        };
    }
    if g.other < l {
        return Lengths {
            last: g.last,
            other: l,
        };
    }
    g
}

fn gaps(b: &[u8], end: usize) -> Lengths
    requires { end + 9 ≤ length b.now }
{
    let mut g = Lengths { last: 0, other: 0 };
    let mut o = 16;
    while o < end {
        let l = record(b, o);
        if l == 0 {
            return g;
        }
        if end - o < l {
            return g;
        }
        if be::be16(b, o) == 65535 {
            g = with_gap(g, l, o + l == end);
        }
        o += l;
    }
    g
}

// The cases of the room rule.
#[derive(Clone, Copy)]
enum Case {
    A,
    B,
    C,
    D,
}

// The case that holds, if there is room.
fn case_of(g: Lengths, s: usize, need: usize) -> Option<Case>
    requires { (s < 65536) × (need < 65536) }
{
    if 0 < s {
        if need <= g.last.max(g.other) {
            return Some(Case::A);
        }
        if need <= 8 * (s - 1) {
            return Some(Case::B);
        }
        if need - 8 * (s - 1) <= g.last {
            return Some(Case::B);
        }
        return None;
    }
    if g.last < 8 {
        return None;
    }
    if need <= g.other {
        return Some(Case::C);
    }
    if need <= g.last - 8 {
        return Some(Case::D);
    }
    None
}

fn room(b: &[u8], name: usize) -> Option<Case>
    requires { name < 65 }
{
    let n = b.len();
    if n < 512 {
        return None;
    }
    let c = be::be32(b, n - 8);
    let s = be::be32(b, n - 4);
    if c == 0 {
        return None;
    }
    if n / 8 < c + 3 {
        return None;
    }
    if c < s {
        return None;
    }
    if 65535 < s {
        return None;
    }
    case_of(gaps(b, n - 8 - 8 * c), s, (name + 18) / 8 * 8)
}

// ---- the book: for each name the number that it is held with

// What the calls came to.
#[derive(Clone, Copy, Default)]
struct Tally {
    // Inserts by each case of the room rule.
    a: u64,
    b: u64,
    c: u64,
    d: u64,
    removed: u64,
    refused: u64,
    // Answers other than the book's, blocks that are not accepted, lookups that differ.
    wrong: u64,
}

fn more(n: u64) -> u64 {
    std::num::wrapping_add_u64(n, 1)
}

// A change that is made, as it must be.
#[derive(Clone, Copy)]
enum Done {
    Inserted(Case),
    Removed,
}

impl Tally {
    // One call more.
    fn count(&mut self, done: Done) {
        let n = match done {
            Done::Inserted(Case::A) => &mut self.a,
            Done::Inserted(Case::B) => &mut self.b,
            Done::Inserted(Case::C) => &mut self.c,
            Done::Inserted(Case::D) => &mut self.d,
            Done::Removed => &mut self.removed,
        };
        *n = more(*n);
    }

    // An answer more that is wrong.
    fn wrong(&mut self) {
        self.wrong = more(self.wrong);
    }

    // A refusal more, where one is wanted.
    fn refused(&mut self, got: Refusal, want: Refusal) {
        if got == want {
            self.refused = more(self.refused);
        } else {
            self.wrong();
        }
    }
}

// The name with a number: its first two bytes tell it from the others.
fn name_of(id: usize) -> [u8; 64]
    requires { id < 256 }
    ensures { 64 ≡ length result }
{
    let mut n = [110u8; 64];
    n[0] = (97 + id / 16) as u8;
    n[1] = (97 + id % 16) as u8;
    n
}

fn name_len(id: usize) -> usize
    requires { id < 256 }
    ensures { (2 ≤ result) × (result ≤ 64) }
{
    2 + id * 37 % 63
}

// Whether a lookup of the name gives what the book holds.
fn agrees(b: &[u8], book: &[Option<u64>], id: usize) -> bool
    requires { (id < 256) × (256 ≤ length book.now) }
{
    let n = name_of(id);
    let k = name_len(id);
    let held = book[id];
    match dir_block_lookup::lookup(b, &n[..k]) {
        Ok(Looked::Found { target, .. }) => held == Some(target.inode),
        Ok(Looked::Absent { .. }) => held.is_none(),
        Err(_) => false,
    }
}

// What an insert must answer.
fn insert_answer(held: Option<u64>, case: Option<Case>) -> Result<Case, Refusal> {
    if held.is_some() {
        return Err(Refusal::Exists);
    }
    case.ok_or(Refusal::NoRoom)
}

fn try_insert(b: &mut [u8], book: &mut [Option<u64>], id: usize, inode: u64, t: &mut Tally)
    requires { (id < 256) × (256 ≤ length book.old) }
    ensures { length book.new ≡ length book.old }
{
    let n = name_of(id);
    let k = name_len(id);
    let want = insert_answer(book[id], room(&b[..], k));
    match (dir_block_edit::insert(b, &n[..k], inode), want) {
        (Ok(()), Ok(case)) => {
            book[id] = Some(inode);
            t.count(Done::Inserted(case));
        }
        (Err(got), Err(want)) => t.refused(got, want),
        _ => t.wrong(),
    }
}

// What a removal must answer.
fn remove_answer(held: Option<u64>) -> Result<(), Refusal> {
    if held.is_none() {
        return Err(Refusal::Absent);
    }
    Ok(())
}

fn try_remove(b: &mut [u8], book: &mut [Option<u64>], id: usize, t: &mut Tally)
    requires { (id < 256) × (256 ≤ length book.old) }
    ensures { length book.new ≡ length book.old }
{
    let n = name_of(id);
    let k = name_len(id);
    let want = remove_answer(book[id]);
    match (dir_block_edit::remove(b, &n[..k]), want) {
        (Ok(()), Ok(())) => {
            book[id] = None;
            t.count(Done::Removed);
        }
        (Err(got), Err(want)) => t.refused(got, want),
        _ => t.wrong(),
    }
}

// The block is accepted, and the name's lookup is as the book says.
fn check(b: &[u8], book: &[Option<u64>], id: usize, t: &mut Tally)
    requires { (id < 256) × (256 ≤ length book.now) }
{
    if dir_block_test::test(b).is_err() | !agrees(b, book, id) {
        t.wrong();
    }
}

// ---- the sequence

fn next(x: u64) -> u64 {
    let a = x ^ (x << 13);
    let c = a ^ (a >> 7);
    c ^ (c << 17)
}

// A number below n.
fn pick(x: u64, n: u64) -> usize
    requires { (0 < n) × (n ≤ 256) }
    ensures { result < 256 }
{
    (x / 65536 % n) as usize
}

// One call: five inserts to four removals.
fn turn(b: &mut [u8], book: &mut [Option<u64>], ids: u64, x: u64, t: &mut Tally)
    requires { (256 ≤ length book.old) × ((0 < ids) × (ids ≤ 256)) }
    ensures { length book.new ≡ length book.old }
{
    let id = pick(x, ids);
    let inode = x / 256 % 1000000 + 1;
    if x % 9 < 5 {
        try_insert(b, book, id, inode, t);
    } else {
        try_remove(b, book, id, t);
    }
    check(&b[..], &book[..], id, t);
}

// So many calls, over so many names.
fn turns(b: &mut [u8], book: &mut [Option<u64>], ids: u64, calls: usize, t: &mut Tally)
    requires { (256 ≤ length book.old) × ((0 < ids) × (ids ≤ 256)) }
    ensures { length book.new ≡ length book.old }
{
    let mut x = 88172645463325252u64;
    for _ in 0..calls {
        x = next(x);
        turn(b, book, ids, x, t);
    }
}

// Every name's lookup, at the end.
fn check_all(b: &[u8], book: &[Option<u64>], t: &mut Tally)
    requires { 256 ≤ length book.now }
{
    for id in 0..256 {
        check(b, book, id, t);
    }
}

fn report(n: usize, calls: usize, t: Tally) {
    text(b"block");
    number(n as u64);
    text(b" calls");
    number(calls as u64);
    text(b" a");
    number(t.a);
    text(b" b");
    number(t.b);
    text(b" c");
    number(t.c);
    text(b" d");
    number(t.d);
    text(b" removed");
    number(t.removed);
    text(b" refused");
    number(t.refused);
    text(b" wrong");
    number(t.wrong);
    text(b"\n");
}

fn sequence(b: &mut [u8], ids: u64, calls: usize)
    requires { (512 ≤ length b.old) × ((0 < ids) × (ids ≤ 256)) }
{
    let mut book = [None; 256];
    let mut t = Tally::default();
    fresh(b);
    turns(b, &mut book, ids, calls, &mut t);
    check_all(&b[..], &book, &mut t);
    report(b.len(), calls, t);
}

fn small() -> [u8; 512]
    ensures { 512 ≡ length result }
{
    [0u8; 512]
}

fn long_name() -> [u8; 255]
    ensures { 255 ≡ length result }
{
    [120u8; 255]
}

fn main() {
    let mut s = small();
    let mut l = io::buffer();
    let x = long_name();
    cases_1_to_3(&mut s);
    case_4(&mut s, &x);
    case_5(&mut s, &x);
    most(&mut s);
    most(&mut l);
    sequence(&mut s, 20, 4000);
    sequence(&mut l, 140, 4000);
}
