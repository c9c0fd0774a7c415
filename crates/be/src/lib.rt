// Big-endian numbers and little-endian words in a slice, copies, zeros and moves: each says which bytes it read or wrote.
#![tactic(auto)]

ghost use Rattle.std.specs.Prelude.{◌≡◌, ◌+◌, ◌≤◌, ◌<◌, eqb, length, replicate};
ghost use Rattle.be.specs.Bytes.{byte, part, field, put, to_be};
ghost use Rattle.be.specs.Words.{le, to_le};

// Kept: the widths of the format's fields, read and written, each by two of half the width. One function over a const width would say
// `field::<2>(b, o) as usize` where `be16(b, o)` says as much, at each of the hundred places that read a field.

// The byte at a place.
pub fn be8(b: &[u8], o: usize) -> usize
    requires { o < length b.now }
    ensures { (result ≡ byte o b.now) × (result < 256) }
{
    usize::from(b[o])
}

// The number in 2 bytes from a place on.
pub fn be16(b: &[u8], o: usize) -> usize
    requires { o + 2 ≤ length b.now }
    ensures { (result ≡ field o 2 b.now) × (result < 65536) }
{
    be8(b, o) * 256 + be8(b, o + 1)
}

// In 4 bytes.
pub fn be32(b: &[u8], o: usize) -> usize
    requires { o + 4 ≤ length b.now }
    ensures { (result ≡ field o 4 b.now) × (result < 4294967296) }
{
    be16(b, o) * 65536 + be16(b, o + 2)
}

// In 8 bytes.
pub fn be64(b: &[u8], o: usize) -> u64
    requires { o + 8 ≤ length b.now }
    ensures { result ≡ field o 8 b.now }
{
    be32(b, o) as u64 * 4294967296 + be32(b, o + 4) as u64
}

// ---- little-endian words: each compiles to one load

fn le8(b: &[u8], o: usize) -> u64
    requires { o < length b.now }
    ensures { (result ≡ le (part o 1 b.now)) × (result < 256) }
{
    be8(b, o) as u64
}

fn le16(b: &[u8], o: usize) -> u64
    requires { o + 2 ≤ length b.now }
    ensures { (result ≡ le (part o 2 b.now)) × (result < 65536) }
{
    le8(b, o + 1) * 256 + le8(b, o)
}

// The number in 4 bytes from a place on, least significant first.
pub fn le32(b: &[u8], o: usize) -> u64
    requires { o + 4 ≤ length b.now }
    ensures { (result ≡ le (part o 4 b.now)) × (result < 4294967296) }
{
    le16(b, o + 2) * 65536 + le16(b, o)
}

// In 8 bytes.
pub fn le64(b: &[u8], o: usize) -> u64
    requires { o + 8 ≤ length b.now }
    ensures { result ≡ le (part o 8 b.now) }
{
    le32(b, o + 4) * 4294967296 + le32(b, o)
}

// Whether the big-endian number in the first 2 of the 8 bytes at o is 0xffff.
pub fn ones_at(b: &[u8], o: usize) -> bool
    requires { o + 8 ≤ length b.now }
    ensures { result ≡ eqb (field o 2 b.now) 0xffff }
{
    le64(b, o) % 65536 == 0xffff
}

// ---- stores

// Stores the lowest byte of a number.
pub fn put8(b: &mut [u8], o: usize, v: usize)
    requires { o < length b.old }
    ensures { b.new ≡ put b.old o (to_be 1 v) }
{
    b[o] = (v % 256) as u8;
}

// The lowest 2 bytes.
pub fn put16(b: &mut [u8], o: usize, v: usize)
    requires { o + 2 ≤ length b.old }
    ensures { b.new ≡ put b.old o (to_be 2 v) }
{
    put8(b, o, v / 256);
    put8(b, o + 1, v);
}

// The lowest 4 bytes.
pub fn put32(b: &mut [u8], o: usize, v: usize)
    requires { o + 4 ≤ length b.old }
    ensures { b.new ≡ put b.old o (to_be 4 v) }
{
    put16(b, o, v / 65536);
    put16(b, o + 2, v);
}

// 8 bytes.
pub fn put64(b: &mut [u8], o: usize, v: u64)
    requires { o + 8 ≤ length b.old }
    ensures { b.new ≡ put b.old o (to_be 8 v) }
{
    put32(b, o, (v / 4294967296) as usize);
    put32(b, o + 4, v as usize);
}

fn put_le16(b: &mut [u8], o: usize, v: u64)
    requires { o + 2 ≤ length b.old }
    ensures { b.new ≡ put b.old o (to_le 2 v) }
{
    put8(b, o, v as usize);
    put8(b, o + 1, (v / 256) as usize);
}

// The lowest 4 bytes, least significant first.
pub fn put_le32(b: &mut [u8], o: usize, v: u64)
    requires { o + 4 ≤ length b.old }
    ensures { b.new ≡ put b.old o (to_le 4 v) }
{
    put_le16(b, o, v);
    put_le16(b, o + 2, v / 65536);
}

// 8 bytes, least significant first: this compiles to one store.
pub fn put_le64(b: &mut [u8], o: usize, v: u64)
    requires { o + 8 ≤ length b.old }
    ensures { b.new ≡ put b.old o (to_le 8 v) }
{
    put_le32(b, o, v);
    put_le32(b, o + 4, v / 4294967296);
}

// Stores n zeros from a place on.
pub fn zero(b: &mut [u8], o: usize, n: usize)
    requires { o + n ≤ length b.old }
    ensures { b.new ≡ put b.old o (replicate n 0) }
{
    b[o..o + n].fill(0);
}

// Copies all of src to a place.
pub fn copy_into(b: &mut [u8], o: usize, src: &[u8])
    requires { o + length src.now ≤ length b.old }
    ensures { b.new ≡ put b.old o src.now }
{
    b[o..o + src.len()].copy_from_slice(src);
}

// Moves n bytes to another place. The two runs may overlap.
pub fn move_bytes(b: &mut [u8], from: usize, to: usize, n: usize)
    requires { (from + n ≤ length b.old) × (to + n ≤ length b.old) }
    ensures { b.new ≡ put b.old to (part from n b.old) }
{
    b.copy_within(from..from + n, to);
}
