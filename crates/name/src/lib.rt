// Names and inode numbers: which are legal, the hash of a name, and when two names are the same.
#![tactic(auto)]

ghost use Rattle.std.specs.Prelude.{◌≡◌, cond, [], ◌∷◌, ◌+◌, ◌≤◌, ◌<◌, length, take, drop};
ghost use Rattle.be.specs.Lists.{every, same};
ghost use Rattle.be.specs.Bytes.{part};
ghost use Rattle.name.specs.Name.{clear_of, legal_name, legal_attr_name, legal_number, rol, hash_from, hash_of, same_name, fixed_name};

use edition::Edition;

// 0 if x is neither 0 nor t, else 1.
fn bad_byte(x: u8, t: u8) -> u8
    ensures { result ≡ cond (clear_of t x) 0 1 }
{
    u8::from((x == 0) | (x == t))
}

// Whether no byte is 0 or equal to t. All bytes are looked at, whatever the first ones show, and what they show is kept as a number: so the
// loop takes many at once.
fn clear_of(s: &[u8], t: u8) -> bool
    ensures { result ≡ every (clear_of t) s.now }
{
    let mut bad: u8 = 0;
    for &x in s {
        bad = bad | bad_byte(x, t);
    }
    bad == 0
}

// Whether a name may stand in a directory.
pub fn legal(e: Edition, s: &[u8]) -> bool
    ensures { result ≡ legal_name e s.now }
{
    if s.len() < 1 {
        return false;
    }
    if 255 < s.len() {
        return false;
    }
    clear_of(s, 47)
}

// Whether a name may be an attribute's.
pub fn attr_legal(s: &[u8]) -> bool
    ensures { result ≡ legal_attr_name s.now }
{
    if s.len() < 1 {
        return false;
    }
    if 255 < s.len() {
        return false;
    }
    clear_of(s, 0)
}

// Whether an inode number is legal.
pub fn number_legal(i: u64) -> bool
    ensures { result ≡ legal_number i }
{
    (1 <= i) & (i < 72057594037927936)
}

// 32 bits, rotated left by k.
pub fn rotated(h: u32, k: u32) -> u32
    requires { (0 < k) × (k < 32) }
    ensures { result ≡ rol k h }
{
    (h << k) | (h >> (32 - k))
}

// The hash with four bytes more, as in the kernel: one rotation for all of them, and each byte moved past those behind it.
fn hash_four(h: u32, a: u8, b: u8, c: u8, d: u8) -> u32
    ensures { result ≡ hash_from h (a ∷ b ∷ c ∷ d ∷ []) }
{
    rotated(h, 28) ^ ((a as u32) << 21) ^ ((b as u32) << 14) ^ ((c as u32) << 7) ^ (d as u32)
}

// The hash of the first k of four bytes. They are moved to the end of a word of four, the others out of it; zeros before them add nothing.
fn hash_first(a: u8, b: u8, c: u8, d: u8, k: u64) -> u32
    requires { k ≤ 4 }
    ensures { result ≡ hash_from 0 (take k (a ∷ b ∷ c ∷ d ∷ [])) }
{
    let w = (a as u64) + (b as u64) * 256 + (c as u64) * 65536 + (d as u64) * 16777216;
    let v = w << (32 - 8 * k);
    hash_four(
        0,
        (v % 256) as u8,
        (v / 256 % 256) as u8,
        (v / 65536 % 256) as u8,
        (v / 16777216 % 256) as u8,
    )
}

// The hash of fewer than four bytes. One to three take one path, with no branch on how many they are: the second of two or three stands
// at n / 2.
fn hash_short(s: &[u8]) -> u32
    requires { length s.now < 4 }
    ensures { result ≡ hash_from 0 s.now }
{
    let n = s.len();
    if n == 0 {
        return 0;
    }
    hash_first(s[0], s[n / 2], s[n - 1], 0, n as u64)
}

// Four bytes a turn. The one to four bytes that leave whole fours come first, in one step: nothing branches on how many they are.
fn hash32(e: Edition, s: &[u8]) -> u32
    ensures { result ≡ hash_of e s.now }
{
    if s.len() < 4 {
        return hash_short(s);
    }
    let k = (s.len() - 1) % 4 + 1;
    let mut h = hash_first(s[0], s[1], s[2], s[3], k as u64);
    for i in (k..s.len()).step_by(4) {
        h = hash_four(h, s[i], s[i + 1], s[i + 2], s[i + 3]);
    }
    h
}

// The hash of a name.
pub fn hash(e: Edition, s: &[u8]) -> usize
    ensures { (result ≡ hash_of e s.now) × (result < 4294967296) }
{
    hash32(e, s) as usize
}

// Whether two runs as long as each other are equal, byte by byte.
fn equal_bytes(s: &[u8], t: &[u8]) -> bool
    requires { length s.now ≡ length t.now }
    ensures { result ≡ same s.now t.now }
{
    for i in 0..s.len() {
        if s[i] != t[i] {
            return false;
        }
    }
    true
}

// Whether the 32 bytes at i of both are equal, by words.
fn equal_32(s: &[u8], t: &[u8], i: usize) -> bool
    requires { (i + 32 ≤ length s.now) × (i + 32 ≤ length t.now) }
    ensures { result ≡ same (part i 32 s.now) (part i 32 t.now) }
{
    (be::le64(s, i) == be::le64(t, i))
        & ((be::le64(s, i + 8) == be::le64(t, i + 8))
            & ((be::le64(s, i + 16) == be::le64(t, i + 16))
                & (be::le64(s, i + 24) == be::le64(t, i + 24))))
}

// Whether two runs as long as each other, of eight bytes at least, are equal, where those before i0 are: eight bytes a turn, and the last
// eight at the end, of which some may have been compared before.
fn equal_words(s: &[u8], t: &[u8], i0: usize) -> bool
    requires s_len { (length s.now ≡ length t.now) × ((8 ≤ length s.now) × (i0 ≤ length s.now)) }
    requires t_value { same s.now t.now ≡ same (drop i0 s.now) (drop i0 t.now) }
    ensures { result ≡ same s.now t.now }
{
    let n = s.len();
    let mut i = i0;
    while 8 < n - i {
        if be::le64(s, i) != be::le64(t, i) {
            return false;
        }
        i += 8;
    }
    be::le64(s, n - 8) == be::le64(t, n - 8)
}

// Whether two runs of bytes are equal: 32 bytes a turn, then eight; fewer than eight byte by byte.
// Kept: `==` of slices took 1.5 times as long (255 bytes: 10.4 ns for 6.8), and a lookup of such a name in 512 bytes is at its bar of 1.3 tests.
// For fewer than eight bytes it is a call, with which this function is not inlined: tests of short names then took 1.3 times as long.
pub fn equal(s: &[u8], t: &[u8]) -> bool
    ensures { result ≡ same s.now t.now }
{
    let n = s.len();
    if n != t.len() {
        return false;
    }
    if n < 8 {
        return equal_bytes(s, t);
    }
    let mut i = 0;
    while 32 < n - i {
        if !equal_32(s, t, i) {
            return false;
        }
        i += 32;
    }
    equal_words(s, t, i)
}

// Whether the directory name s asked for is the stored name t.
pub fn matches(e: Edition, s: &[u8], t: &[u8]) -> bool
    ensures { result ≡ same_name e s.now t.now }
{
    equal(s, t)
}

// Whether a name is "." or "..".
pub fn fixed(s: &[u8]) -> bool
    ensures { result ≡ fixed_name s.now }
{
    if equal(s, b".") {
        return true;
    }
    equal(s, b"..")
}
