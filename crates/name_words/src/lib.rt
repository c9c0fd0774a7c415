// Directory names by words of eight bytes: their legality and hash in one pass, the hash alone, and a second hash; and inode numbers by one word.
#![tactic(auto)]

ghost use Rattle.std.specs.Prelude.{◌≡◌, ◌&&◌, ◌+◌, ◌-◌, ◌*◌, ◌/◌, ◌%◌, ◌^◌, ◌≤◌, ◌<◌, length};
ghost use Rattle.be.specs.Lists.{every};
ghost use Rattle.be.specs.Bytes.{part, field};
ghost use Rattle.be.specs.Words.{le, to_le};
ghost use Rattle.name.specs.Name.{hash_from, hash_of, legal_byte, legal_name, legal_number};
ghost use Rattle.name_words.specs.Words.{marked, bytes_32, HalfRead, mix, key_from, key_of};

use edition::Edition;

// A word has eight lanes of eight bits, one for each byte. Of every lane: the bits below the highest, the highest, and "/".
const LOW_BITS: u64 = 0x7f7f7f7f7f7f7f7f;

const HIGH_BITS: u64 = 0x8080808080808080;

const SLASHES: u64 = 0x2f2f2f2f2f2f2f2f;

// A mark in each lane whose byte may stand in a name: its highest bit is set exactly if the byte isn't 0, once for the bytes and once for
// the bytes laid over "/". No lane carries into the next.
fn marks(v: u64) -> u64
    ensures { marked result ≡ every legal_byte (to_le 8 v) }
{
    let x = v ^ SLASHES;
    (((v & LOW_BITS) + LOW_BITS) | v) & (((x & LOW_BITS) + LOW_BITS) | x)
}

// The low halves of each 16 and of each 32 bits.
const LOW_OF_16: u64 = 0x00ff00ff00ff00ff;

const LOW_OF_32: u64 = 0x0000ffff0000ffff;

// The hash of the word's eight bytes, first byte lowest: pairs, then fours, then the eight.
fn hash_word(w: u64) -> u32
    ensures { result ≡ hash_from 0 (to_le 8 w) }
{
    let pairs = ((w & LOW_OF_16) << 7) ^ ((w >> 8) & LOW_OF_16);
    let fours = ((pairs & LOW_OF_32) << 14) ^ ((pairs >> 16) & LOW_OF_32);
    let hi = (fours >> 32) as u32;
    let lo = (fours % 4294967296) as u32;
    name::rotated(lo, 28) ^ hi
}

// What the bytes of a name so far show: a mark in every lane if all of them may stand in it, and their hash.
#[derive(Clone, Copy)]
struct Read {
    marks: u64,
    hash: u32,
}

// The hash h with the eight bytes of the word w more.
fn with_word(h: u32, w: u64) -> u32
    ensures { result ≡ hash_from h (to_le 8 w) }
{
    name::rotated(h, 24) ^ hash_word(w)
}

// The first n bytes of the word w, moved to its end.
fn moved(w: u64, n: u32) -> u64
    requires { (1 ≤ n) × (n ≤ 8) }
    ensures { result ≡ le (to_le n w) * 2 ^ (64 - 8 * n) }
{
    w << (64 - 8 * n)
}

// The first n bytes of the word w alone. Zeros before them add nothing to the hash, and bytes of ones pass.
fn one_word(w: u64, n: u32) -> Read
    requires { (1 ≤ n) × (n ≤ 8) }
    ensures { (result.hash ≡ hash_from 0 (to_le n w)) × (marked result.marks ≡ every legal_byte (to_le n w)) }
{
    let v = moved(w, n);
    let hash = hash_word(v);
    let m = marks(v | ((1u64 << (64 - 8 * n)) - 1));
    Read { marks: m, hash }
}

impl Read {
    // With the eight bytes of the word w more.
    fn next(self, w: u64) -> Read
        ensures { (result.hash ≡ hash_from self.hash (to_le 8 w)) × (marked result.marks ≡ (marked self.marks && every legal_byte (to_le 8 w))) }
    {
        let hash = with_word(self.hash, w);
        let m = self.marks & marks(w);
        Read { marks: m, hash }
    }

    // With the first n bytes of the word w more.
    fn last(self, w: u64, n: u32) -> Read
        requires { (1 ≤ n) × (n ≤ 8) }
        ensures { (result.hash ≡ hash_from self.hash (to_le n w)) × (marked result.marks ≡ (marked self.marks && every legal_byte (to_le n w))) }
    {
        let one = one_word(w, n);
        let hash = name::rotated(self.hash, 7 * n % 32) ^ one.hash;
        let m = self.marks & one.marks;
        Read { marks: m, hash }
    }

    // With the bytes from i0 up to end more, where eight more bytes follow them: eight bytes a turn.
    // Kept: the last word is read where the loop ends, and a `for` by steps would need that place worked out before, by a division.
    fn words(self, b: &[u8], i0: usize, end: usize) -> Read
        requires { (i0 < end) × (end + 8 ≤ length b.now) }
        ensures { (result.hash ≡ hash_from self.hash (part i0 (end - i0) b.now))
            × (marked result.marks ≡ (marked self.marks && every legal_byte (part i0 (end - i0) b.now))) }
    {
        let mut i = i0;
        let mut read = self;
        while 8 < end - i {
            read = read.next(be::le64(b, i));
            i += 8;
        }
        read.last(be::le64(b, i), (end - i) as u32)
    }
}

// The hash of the 32 bytes of four words.
fn folded(a: u64, b: u64, c: u64, d: u64) -> u32
    ensures { result ≡ hash_from 0 (bytes_32 a b c d) }
{
    name::rotated(hash_word(a), 8)
        ^ (name::rotated(hash_word(b), 16) ^ (name::rotated(hash_word(c), 24) ^ hash_word(d)))
}

// What the bytes up to a place show.
#[derive(Clone, Copy)]
struct Begun {
    at: usize,
    read: Read,
}

// As long as more than 32 bytes are left: runs of 32 are laid over each other, and hashed once.
// Kept: the loop ends where the rest begins, as that of `Read::words` does.
fn chunks(b: &[u8], i0: usize, end: usize) -> Begun
    requires { (i0 < end) × (end + 8 ≤ length b.now) }
    ensures { HalfRead b.now i0 end result.at result.read.marks result.read.hash }
{
    let mut i = i0;
    let mut m = HIGH_BITS;
    let mut u: u64 = 0;
    let mut v: u64 = 0;
    let mut x: u64 = 0;
    let mut y: u64 = 0;
    while 32 < end - i {
        let p = be::le64(b, i);
        let q = be::le64(b, i + 8);
        let r = be::le64(b, i + 16);
        let s = be::le64(b, i + 24);
        m = m & (marks(p) & (marks(q) & (marks(r) & marks(s))));
        u = u ^ p;
        v = v ^ q;
        x = x ^ r;
        y = y ^ s;
        i += 32;
    }
    let hash = folded(u, v, x, y);
    let read = Read { marks: m, hash };
    Begun { at: i, read }
}

// The same, and nothing is hashed where there is no run of 32.
fn begin(b: &[u8], i0: usize, end: usize) -> Begun
    requires { (i0 < end) × (end + 8 ≤ length b.now) }
    ensures { HalfRead b.now i0 end result.at result.read.marks result.read.hash }
{
    if end - i0 <= 32 {
        let read = Read {
            marks: HIGH_BITS,
            hash: 0,
        };
        return Begun { at: i0, read };
    }
    chunks(b, i0, end)
}

// What the name from i0 up to end shows, where eight more bytes follow it.
fn all_words(b: &[u8], i0: usize, end: usize) -> Read
    requires { (i0 < end) × (end + 8 ≤ length b.now) }
    ensures { (result.hash ≡ hash_from 0 (part i0 (end - i0) b.now))
        × (marked result.marks ≡ every legal_byte (part i0 (end - i0) b.now)) }
{
    let g = begin(b, i0, end);
    g.read.words(b, g.at, end)
}

// What a directory name shows.
#[derive(Clone, Copy)]
pub struct Checked {
    pub legal: bool,
    pub hash: usize,
}

// Legal is what has every mark.
fn judged(g: Read) -> Checked
    ensures { (result.legal ≡ marked g.marks) × ((result.hash ≡ g.hash) × (result.hash < 4294967296)) }
{
    let hash = g.hash as usize;
    let legal = (g.marks & HIGH_BITS) == HIGH_BITS;
    Checked { legal, hash }
}

// What a name of 9 to 16 bytes shows, with no loop. Its first eight bytes and its last eight are all of it. For the hash, those before the last
// eight are moved to the end of a word, where the zeros before them add nothing.
fn two_words(b: &[u8], i: usize, end: usize) -> Read
    requires { (i + 8 < end) × (end ≤ i + 16) × (end ≤ length b.now) }
    ensures { (result.hash ≡ hash_from 0 (part i (end - i) b.now))
        × (marked result.marks ≡ every legal_byte (part i (end - i) b.now)) }
{
    let v = be::le64(b, i);
    let w = be::le64(b, end - 8);
    let h = hash_word(moved(v, (end - 8 - i) as u32));
    let hash = with_word(h, w);
    let m = marks(v) & marks(w);
    Read { marks: m, hash }
}

// Legality and hash of the directory name from i up to end, where eight more bytes follow it. Up to eight bytes are one word.
pub fn check_in(e: Edition, b: &[u8], i: usize, end: usize) -> Checked
    requires { (i ≤ end) × (end + 8 ≤ length b.now) × (end ≤ i + 255) }
    ensures { (result.legal ≡ legal_name e (part i (end - i) b.now))
        × ((result.hash ≡ hash_of e (part i (end - i) b.now)) × (result.hash < 4294967296)) }
{
    if end <= i {
        return Checked {
            legal: false,
            hash: 0,
        };
    }
    if end - i <= 8 {
        return judged(one_word(be::le64(b, i), (end - i) as u32));
    }
    if end - i <= 16 {
        return judged(two_words(b, i, end));
    }
    judged(all_words(b, i, end))
}

// Whether the big-endian number in the 8 bytes at o is a legal inode number: its first byte is 0, and not all are.
pub fn number_legal_at(b: &[u8], o: usize) -> bool
    requires { o + 8 ≤ length b.now }
    ensures { result ≡ legal_number (field o 8 b.now) }
{
    let w = be::le64(b, o);
    (w != 0) & (w % 256 == 0)
}

// ---- the hash alone, of bytes that nothing need follow

// A place, and a hash that goes on from there.
#[derive(Clone, Copy)]
struct Hashed {
    at: usize,
    hash: u32,
}

// Runs of 32, as long as more than 32 bytes are left.
// Kept: the loop ends where the rest begins, as that of `Read::words` does.
fn runs(s: &[u8]) -> Hashed
    requires { 0 < length s.now }
    ensures { (result.at < length s.now)
        × (hash_from 0 (part 0 (length s.now - 0) s.now)
        ≡ hash_from result.hash (part result.at (length s.now - result.at) s.now)) }
{
    let n = s.len();
    let mut i = 0;
    let mut u: u64 = 0;
    let mut v: u64 = 0;
    let mut x: u64 = 0;
    let mut y: u64 = 0;
    while 32 < n - i {
        u = u ^ be::le64(s, i);
        v = v ^ be::le64(s, i + 8);
        x = x ^ be::le64(s, i + 16);
        y = y ^ be::le64(s, i + 24);
        i += 32;
    }
    let hash = folded(u, v, x, y);
    Hashed { at: i, hash }
}

// The last n bytes, as the first of a word.
fn end_word(s: &[u8], n: u32) -> u64
    requires { (1 ≤ n) × (n ≤ 8) × (8 ≤ length s.now) }
    ensures { to_le n result ≡ part (length s.now - n) n s.now }
{
    be::le64(s, s.len() - 8) >> (64 - 8 * n)
}

// The hash h with the first n bytes of the word w more.
fn with_first(h: u32, w: u64, n: u32) -> u32
    requires { (1 ≤ n) × (n ≤ 8) }
    ensures { result ≡ hash_from h (to_le n w) }
{
    name::rotated(h, 7 * n % 32) ^ hash_word(moved(w, n))
}

// The hash h0 with the bytes from i0 on, eight a turn.
// Kept: the last bytes are read where the loop ends, as in `Read::words`.
fn hash_rest(s: &[u8], i0: usize, h0: u32) -> u32
    requires { (i0 < length s.now) × (8 ≤ length s.now) }
    ensures { result ≡ hash_from h0 (part i0 (length s.now - i0) s.now) }
{
    let mut i = i0;
    let mut h = h0;
    while 8 < s.len() - i {
        h = with_word(h, be::le64(s, i));
        i += 8;
    }
    let n = (s.len() - i) as u32;
    with_first(h, end_word(s, n), n)
}

// The hash of a name: from 33 bytes on by runs of 32.
pub fn hash(e: Edition, s: &[u8]) -> usize
    ensures { (result ≡ hash_of e s.now) × (result < 4294967296) }
{
    if s.len() <= 32 {
        return name::hash(e, s);
    }
    let g = runs(s);
    hash_rest(s, g.at, g.hash) as usize
}

// ---- a second hash of a name

// A key with eight bytes more.
fn mixed(k: u64, w: u64) -> u64
    ensures { result ≡ mix k w }
{
    let x = k ^ w;
    (x % 4294967296 * 2654435761) ^ (x / 4294967296)
}

// Eight bytes a turn, from the key k0.
// Kept: the last word is read where the loop ends, as in `Read::words`.
fn key_words(b: &[u8], i0: usize, end: usize, k0: u64) -> u64
    requires { (i0 < end) × (end + 8 ≤ length b.now) }
    ensures { result ≡ key_from ((end - i0 - 1) / 8) k0 (part i0 (end - i0) b.now) }
{
    let mut i = i0;
    let mut k = k0;
    while 8 < end - i {
        k = mixed(k, be::le64(b, i));
        i += 8;
    }
    mixed(k, moved(be::le64(b, i), (end - i) as u32))
}

// The same of n bytes, 9 to 16 as many names have, from the key n: without a loop.
fn key_of_two(b: &[u8], i: usize, n: usize) -> u64
    requires { (8 < n) × (n ≤ 16) × (i + n + 8 ≤ length b.now) }
    ensures { result ≡ key_from ((n - 1) / 8) n (part i n b.now) }
{
    mixed(
        mixed(n as u64, be::le64(b, i)),
        moved(be::le64(b, i + 8), (n - 8) as u32),
    )
}

// The key made of k: its high half once more over its low half.
fn finished(k: u64) -> usize
    ensures { (result ≡ mix k (k / 4294967296) / 131072 % 4294967296) × (result < 4294967296) }
{
    (mixed(k, k / 4294967296) / 131072 % 4294967296) as usize
}

// A number for the name from i up to end, where eight more bytes follow it: the same for equal names.
pub fn key(b: &[u8], i: usize, end: usize) -> usize
    requires { (i ≤ end) × (end + 8 ≤ length b.now) }
    ensures { (result ≡ key_of (part i (end - i) b.now)) × (result < 4294967296) }
{
    if end <= i {
        return 0;
    }
    let n = end - i;
    if (8 < n) & (n <= 16) {
        return finished(key_of_two(b, i, n));
    }
    finished(key_words(b, i, end, n as u64))
}
