// The dumps of document 000, the room of its second inode, and a case for each refusal of an attribute call.
// Each line is what a call answers; what a line must be is worked out from the papers, in stdout.
#![tactic(auto)]

ghost use Rattle.std.specs.Prelude.{◌≤◌, ◌<◌, length};

use attr_sf::Attr;
use refusal::Refusal;

// The process's own streams, by the numbers that the system gives them.
const STDOUT_FILENO: i32 = 1;

// Kept: each program has these lines; a crate of them would promise nothing, since no contract can speak of what is written.
fn text(s: &[u8]) {
    io::write_all(STDOUT_FILENO, s);
}

// A word and a newline.
fn line(s: &[u8]) {
    text(s);
    text(b"\n");
}

// A number, after a space.
fn number(n: usize) {
    text(b" ");
    io::print_decimal(STDOUT_FILENO, n as u64);
}

// The bytes that the two dumps share, of rows of 16.
fn core() -> [u8; 256] {
    let mut b = [0u8; 256];
    be::copy_into(
        &mut b,
        0,
        b"\x49\x4e\x81\xa4\x01\x02\x00\x01\x00\x00\x00\x00\x00\x00\x00\x00",
    );
    be::copy_into(
        &mut b,
        64,
        b"\x00\x00\x00\x00\x00\x00\x00\x01\x00\x00\x00\x00\x00\x00\x00\x01",
    );
    b
}

// The first dump, before the attribute fork.
fn first_core() -> [u8; 256] {
    let mut b = core();
    be::copy_into(
        &mut b,
        16,
        b"\x00\x00\x00\x01\x00\x00\x00\x00\x00\x00\x00\x00\x00\x00\x00\x02",
    );
    be::copy_into(
        &mut b,
        32,
        b"\x44\xbe\x19\xbe\x38\xd1\x26\x98\x44\xbe\x1a\xbe\x38\xd1\x26\x98",
    );
    be::copy_into(
        &mut b,
        48,
        b"\x44\xbe\x1a\xe1\x3a\x9a\xea\x18\x00\x00\x00\x00\x00\x00\x00\x04",
    );
    be::copy_into(
        &mut b,
        80,
        b"\x00\x00\x0f\x01\x00\x00\x00\x00\x00\x00\x00\x00\x00\x00\x00\x00",
    );
    be::copy_into(
        &mut b,
        96,
        b"\xff\xff\xff\xff\x00\x00\x00\x00\x00\x00\x00\x00\x00\x00\x00\x12",
    );
    be::copy_into(
        &mut b,
        112,
        b"\x53\xa0\x00\x01\x00\x00\x00\x00\x00\x00\x00\x00\x00\x00\x00\x00",
    );
    b
}

// The first dump: forkoff 15, so the fork lies at 220; totsize 24, count 2.
fn first() -> [u8; 256] {
    let mut b = first_core();
    be::copy_into(
        &mut b,
        208,
        b"\x00\x00\x00\x00\x00\x00\x00\x00\x00\x00\x00\x00\x00\x18\x02\x00",
    );
    be::copy_into(
        &mut b,
        224,
        b"\x05\x00\x00\x65\x6d\x70\x74\x79\x05\x04\x02\x74\x72\x75\x73\x74",
    );
    be::copy_into(
        &mut b,
        240,
        b"\x76\x61\x6c\x31\x00\x00\x00\x00\x00\x00\x00\x00\x00\x00\x00\x00",
    );
    b
}

// The second dump, before the attribute fork.
fn second_core() -> [u8; 256] {
    let mut b = core();
    be::copy_into(
        &mut b,
        16,
        b"\x00\x00\x00\x01\x00\x00\x00\x00\x00\x00\x00\x00\x00\x00\x00\x05",
    );
    be::copy_into(
        &mut b,
        32,
        b"\x44\xbe\x24\xcd\x0f\xb0\x96\x18\x44\xbe\x24\xcd\x0f\xb0\x96\x18",
    );
    be::copy_into(
        &mut b,
        48,
        b"\x44\xbe\x2d\xf5\x01\x62\x7a\x18\x00\x00\x00\x00\x00\x00\x00\x04",
    );
    be::copy_into(
        &mut b,
        80,
        b"\x00\x00\x0a\x01\x00\x00\x00\x00\x00\x00\x00\x00\x00\x00\x00\x00",
    );
    be::copy_into(
        &mut b,
        96,
        b"\xff\xff\xff\xff\x00\x00\x00\x00\x00\x00\x00\x00\x00\x00\x00\x01",
    );
    be::copy_into(
        &mut b,
        112,
        b"\x41\xc0\x00\x01\x00\x00\x00\x00\x00\x00\x00\x00\x00\x00\x00\x00",
    );
    b
}

// The second dump: forkoff 10, so the fork lies at 180 and has 76 bytes; totsize 69, count 4.
fn second() -> [u8; 256] {
    let mut b = second_core();
    be::copy_into(
        &mut b,
        176,
        b"\x00\x00\x00\x00\x00\x45\x04\x00\x0a\x00\x00\x65\x6d\x70\x74\x79",
    );
    be::copy_into(
        &mut b,
        192,
        b"\x5f\x61\x74\x74\x72\x07\x04\x02\x74\x72\x75\x73\x74\x5f\x61\x76",
    );
    be::copy_into(
        &mut b,
        208,
        b"\x61\x6c\x31\x06\x0c\x00\x73\x65\x63\x6f\x6e\x64\x73\x65\x63\x6f",
    );
    be::copy_into(
        &mut b,
        224,
        b"\x6e\x64\x5f\x76\x61\x6c\x75\x65\x06\x08\x04\x70\x6f\x6c\x69\x63",
    );
    be::copy_into(
        &mut b,
        240,
        b"\x79\x63\x6f\x6e\x74\x65\x6e\x74\x73\x64\x5f\x76\x61\x6c\x75\x65",
    );
    b
}

// A refusal, by its number.
fn refused_by(why: Refusal) {
    text(b"refused");
    number(why.number() as usize);
}

// A call's number: 0 where it is done.
fn outcome<T: Copy>(answer: Result<T, Refusal>) {
    number(match answer {
        Ok(_) => 0,
        Err(why) => why.number() as usize,
    });
}

// What a step of the walk meets.
fn shown(seen: Option<Attr>) {
    match seen {
        Some(a) => {
            text(b"live");
            number(a.flags);
            number(a.name_start);
            number(a.name_len);
            number(a.value_start);
            number(a.value_len);
        }
        None => text(b"end"),
    }
}

fn step(b: &[u8], place: usize) {
    match attr_sf::step_at(b, place) {
        Ok(s) => {
            shown(s.seen);
            number(s.next);
        }
        Err(why) => refused_by(why),
    }
    line(b"");
}

// The plain lookup, and the value in brackets.
fn look<'a, 'b>(b: &'a [u8], name: &'b [u8], flags: usize) {
    match attr_sf::lookup(b, name, flags) {
        Ok(place) => {
            text(b"at");
            number(place.start);
            number(place.len);
        }
        Err(why) => refused_by(why),
    }
    text(b" [");
    text(attr_sf::value(b, name, flags));
    line(b"]");
}

fn tested(b: &[u8]) {
    text(b"test");
    outcome(attr_sf::test(b));
    line(b"");
}

fn first_dump() {
    let b = first();
    line(b"first dump");
    tested(&b);
    step(&b, 4);
    step(&b, 12);
    step(&b, 24);
    step(&b, 24);
    step(&b, 5);
    look(&b, b"empty", 0);
    look(&b, b"trust", 2);
    look(&b, b"trust", 0);
    look(&b, b"trust", 1);
}

fn second_dump() {
    let b = second();
    line(b"second dump");
    tested(&b);
    step(&b, 4);
    step(&b, 17);
    step(&b, 31);
    step(&b, 52);
    step(&b, 69);
    look(&b, b"empty_attr", 0);
    look(&b, b"trust_a", 2);
    look(&b, b"second", 0);
    look(&b, b"policy", 4);
}

// Whether bytes are as they were.
fn kept<'a, 'b>(b: &'a [u8], before: &'b [u8]) {
    if b == before {
        line(b" kept");
    } else {
        line(b" changed");
    }
}

fn set<'a, 'b, 'c>(b: &'a mut [u8], name: &'b [u8], flags: usize, value: &'c [u8]) {
    text(b"set");
    outcome(attr_sf::set(b, name, flags, value));
    line(b"");
}

fn remove<'a, 'b>(b: &'a mut [u8], name: &'b [u8], flags: usize) {
    text(b"remove");
    outcome(attr_sf::remove(b, name, flags));
    line(b"");
}

// totsize, count and the pad byte of the second dump's fork.
fn header(b: &[u8; 256]) {
    text(b"header");
    number(be::be16(b, 180));
    number(be::be8(b, 182));
    number(be::be8(b, 183));
    line(b"");
}

// Fork 76, totsize 69: with 4 bytes refused, with 3 it goes in; then the fork is full, and an equal one makes room for itself.
fn room() -> [u8; 256] {
    let mut b = second();
    b[183] = 7;
    let before = b;
    line(b"room");
    set(&mut b, b"x", 0, b"1234");
    kept(&b, &before);
    set(&mut b, b"x", 0, b"123");
    header(&b);
    look(&b, b"x", 0);
    set(&mut b, b"x", 0, b"abc");
    look(&b, b"x", 0);
    set(&mut b, b"x", 2, b"");
    b
}

// After a totsize of 59: the bytes past the list's end, and those before the fork.
fn ends<'a, 'b>(b: &'a [u8], before: &'b [u8])
    requires { (256 ≤ length b.now) × (256 ≤ length before.now) }
{
    text(b"unused");
    kept(&b[239..], &[0u8; 17]);
    text(b"outside");
    kept(&b[0..180], &before[0..180]);
}

// An equal one goes and the new one stands at the end; others stay in order.
fn order(from: [u8; 256]) {
    let mut b = from;
    line(b"order");
    set(&mut b, b"second", 0, b"second_value");
    look(&b, b"policy", 4);
    look(&b, b"x", 0);
    look(&b, b"second", 0);
    remove(&mut b, b"policy", 4);
    header(&b);
    remove(&mut b, b"policy", 4);
    look(&b, b"x", 0);
    look(&b, b"second", 0);
    ends(&b, &second());
}

// The numbers of a lookup, a set and a removal, and whether the bytes are as they were.
fn asked<'a, 'b, 'c>(b: &'a mut [u8], before: &'b [u8], name: &'c [u8], flags: usize) {
    outcome(attr_sf::lookup(b, name, flags));
    outcome(attr_sf::set(b, name, flags, b"new"));
    outcome(attr_sf::remove(b, name, flags));
    kept(b, before);
}

// The numbers of all five calls on bytes that don't pass the tests.
fn refused<'a, 'b>(b: &'a mut [u8], before: &'b [u8]) {
    text(b"refused");
    outcome(attr_sf::test(b));
    outcome(attr_sf::step_at(b, 4));
    asked(b, before, b"trust", 2);
}

// The first dump with another byte at a place.
fn broken(at: usize, x: u8)
    requires { at < 256 }
{
    let mut b = first();
    b[at] = x;
    let before = b;
    refused(&mut b, &before);
}

// The first n bytes.
fn cut<'a, 'b>(b: &'a mut [u8], before: &'b [u8], n: usize)
    requires { (n ≤ length b.old) × (n ≤ length before.now) }
{
    refused(&mut b[0..n], &before[0..n]);
}

// 1: 255 bytes and none are no inode.
fn sizes() {
    let mut b = first();
    let before = b;
    cut(&mut b, &before, 255);
    cut(&mut b, &before, 0);
}

// 10: the second attribute has the first's name, and then its flags too.
fn twice() {
    let mut b = first();
    be::copy_into(&mut b, 235, b"empty");
    tested(&b);
    b[234] = 0;
    let before = b;
    refused(&mut b, &before);
}

fn tests() {
    line(b"tests");
    sizes();
    // 2: magic. 3: version, forkoff beyond the end, no attribute fork, aformat.
    broken(1, 79);
    broken(4, 3);
    broken(82, 20);
    broken(82, 0);
    broken(83, 2);
    // 4: totsize under the header, over the fork. 5: a third entry, a byte too many.
    broken(221, 3);
    broken(221, 37);
    broken(222, 3);
    broken(221, 25);
    // 6: a zero in a name. 7: a third bit, both bits.
    broken(229, 0);
    broken(234, 1);
    broken(234, 6);
    twice();
}

// 13: legal and not there; an attribute's name may hold "/".
fn absent() {
    let mut b = first();
    let before = b;
    look(&b, b"a/b", 0);
    remove(&mut b, b"empty", 4);
    kept(&b, &before);
}

// 11: names and flags that are not legal.
fn requests() {
    let mut b = first();
    let before = b;
    line(b"requests");
    asked(&mut b, &before, b"", 0);
    asked(&mut b, &before, b"a\x00", 0);
    asked(&mut b, &before, &[97u8; 256], 0);
    asked(&mut b, &before, b"trust", 1);
    asked(&mut b, &before, b"trust", 6);
    asked(&mut b, &before, b"trust", 258);
    absent();
}

// 15: a value of 256 bytes, then one more than the fork holds.
fn values() {
    let mut b = first();
    let before = b;
    line(b"values");
    set(&mut b, b"trust", 2, &[1u8; 256]);
    set(&mut b, b"trust", 2, b"val1 and 13 more.");
    kept(&b, &before);
    set(&mut b, b"trust", 2, b"val1 and 12 more");
    look(&b, b"trust", 2);
    look(&b, b"empty", 0);
}

fn main() {
    first_dump();
    second_dump();
    order(room());
    tests();
    requests();
    values();
}
