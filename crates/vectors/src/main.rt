// Runs the papers' unstarred numbers: hashes that documents 000 and 004 print, and the inode cores of their dumps.
#![tactic(auto)]

use edition::V4;

// The process's own streams, by the numbers that the system gives them.
const STDOUT_FILENO: i32 = 1;

// Kept: each program has these lines; a crate of them would promise nothing, since no contract can speak of what is written.
fn text(s: &[u8]) {
    io::write_all(STDOUT_FILENO, s);
}

fn number(n: u64) {
    text(b" ");
    io::print_decimal(STDOUT_FILENO, n);
}

// A line with a name and its hash.
fn hash(name: &[u8]) {
    text(name);
    text(b" ");
    io::print_hex(STDOUT_FILENO, name::hash(V4::edition(), name) as u64, 8);
    text(b"\n");
}

// A line with the fields of an inode, or the refusal's number.
fn inode(b: &[u8]) {
    match dinode::test(b) {
        Ok(c) => {
            text(b"inode");
            number(c.magic as u64);
            number(c.mode as u64);
            number(c.version as u64);
            number(c.format as u64);
            number(c.size);
            number(c.forkoff as u64);
            number(c.aformat as u64);
        }
        Err(refusal) => {
            text(b"refused");
            number(u64::from(refusal.number()));
        }
    }
    text(b"\n");
}

// An inode whose core starts with these 6 bytes, with this size, forkoff and aformat.
fn core(head: &[u8; 6], size: u8, forkoff: u8, aformat: u8) -> [u8; 256] {
    let mut b = [0u8; 256];
    be::copy_into(&mut b, 0, head);
    b[63] = size;
    b[82] = forkoff;
    b[83] = aformat;
    b
}

fn main() {
    hash(b"attribute_267");
    hash(b"attribute_266");
    hash(b"attribute_310");
    hash(b"frame000000.tst");
    inode(&core(b"IN\x81\xa4\x01\x02", 4, 15, 1));
    inode(&core(b"IN\x41\xed\x01\x01", 94, 0, 2));
    inode(&core(b"IN\x41\xed\x02\x01", 6, 19, 1));
    inode(&core(b"IN\x41\xed\x02\x01", 6, 20, 1));
    inode(&core(b"IN\x41\xed\x03\x01", 6, 0, 2));
    inode(&core(b"IM\x41\xed\x02\x01", 6, 0, 2));
    inode(b"IN\x41\xed\x02\x01");
}
