// Short-form attributes: test, walk step, lookup, set and removal, in an inode that is lent as a slice.
#![tactic(auto)]

ghost use Rattle.std.specs.Prelude.{◌≡◌, true, ◌+◌, ◌-◌, ◌≤◌, ◌<◌, length};
ghost use Rattle.be.specs.Bytes.{put, to_be};
ghost use Rattle.be.specs.Lists.{some_of};
ghost use Rattle.records.specs.Records.{tiled, stands};
ghost use Rattle.edition.specs.Edition.{v4, Sane};
ghost use Rattle.refusal.specs.Refusal.{code, numbered};
ghost use Rattle.attr_sf.specs.Entry.{entry, entry_bytes, legal_flags, legal_key, is_key, distinct};
ghost use Rattle.attr_sf.specs.Fork.{header, totsize, count, size_at, entry_at, entries};
ghost use Rattle.attr_sf.specs.Fork.{fork_verdict, seek, key_place};
ghost use Rattle.attr_sf.specs.Calls.{verdict, asked_code, found_in, lookup, LookupPromise, start_of, length_of, part_of};
ghost use Rattle.attr_sf.specs.Calls.{remove_code, set_code, remove_bytes, set_bytes};
ghost use Rattle.attr_sf.specs.Walk.{live_step, walked_in, walk_step, StepPromise};
ghost use Rattle.attr_sf.specs.Inner.{own_verdict, place_before, fork_if, plan_of, closed, ForkRemoval, ForkSet};

use dinode::Fork;
use edition::{Edition, V4};
use refusal::Refusal;

// Bytes of a fork's header: totsize (2), count, a pad byte. A walk starts here.
pub const HEADER: usize = 4;

// The namespace bits of an attribute's flags, and every other bit.
const TRUSTED: u8 = 2;

const SECURE: u8 = 4;

const OTHER: u8 = 255 - TRUSTED - SECURE;

// Where a value lies in the lent inode.
#[derive(Clone, Copy)]
pub struct Place {
    pub start: usize,
    pub len: usize,
}

// An attribute that the walk meets: name and value by their places in the lent inode.
#[derive(Clone, Copy)]
pub struct Attr {
    pub flags: usize,
    pub name_start: usize,
    pub name_len: usize,
    pub value_start: usize,
    pub value_len: usize,
}

// What a step meets, none at the end (short forms have no gaps), and where the walk now stands.
#[derive(Clone, Copy)]
pub struct Step {
    pub next: usize,
    pub seen: Option<Attr>,
}

// At most one of the two namespace bits is set, and no other bit.
fn flags_byte(f: u8) -> bool
    ensures { result ≡ legal_flags f }
{
    (u8::count_ones(f) <= 1) & (f & OTHER == 0)
}

// Whether a number is legal flags: what is no byte is none.
fn flags_legal(f: usize) -> bool
    ensures { result ≡ legal_flags f }
{
    match u8::try_from(f) {
        Ok(byte) => flags_byte(byte),
        Err(_) => false,
    }
}

// What an attribute is asked for by.
#[derive(Clone, Copy)]
struct Key<'a> {
    name: &'a [u8],
    flags: usize,
}

impl<'a> Key<'a> {
    // Whether its name and flags are legal.
    fn legal(self) -> bool
        ensures { result ≡ legal_key self.entry.name.now self.entry.flags }
    {
        name::attr_legal(self.name) & flags_legal(self.flags)
    }
}

// The bytes of the entry at a place.
fn size(f: &[u8], at: usize) -> usize
    requires { at + 3 ≤ length f.now }
    ensures { (result ≡ size_at f.now at) × ((3 ≤ result) × (result < 600)) }
{
    3 + be::be8(f, at) + be::be8(f, at + 1)
}

// Whether n entries end exactly at end.
fn tiles(f: &[u8], n: usize, end: usize) -> bool
    requires { (header ≤ end) × (end ≤ length f.now) }
    ensures { result ≡ tiled (size_at f.now) end n header }
{
    let mut at = HEADER;
    for _ in 0..n {
        if end - at < 3 {
            return false;
        }
        let s = size(f, at);
        if end - at < s {
            return false;
        }
        at += s;
    }
    at == end
}

// The entry at a place of a fork.
#[derive(Clone, Copy)]
struct Entry<'a> {
    fork: &'a [u8],
    at: usize,
    ghost inside: { at + size_at fork.now at ≤ length fork.now },
}

impl<'a> Entry<'a> {
    fn name(self) -> &'a [u8]
        ensures { result.now ≡ (entry_at self.entry.fork.now self.entry.at).name }
    {
        let from = self.at + 3;
        let to = from + be::be8(self.fork, self.at);
        &self.fork[from..to]
    }

    fn flags(self) -> usize
        ensures { result ≡ (entry_at self.entry.fork.now self.entry.at).flags }
    {
        be::be8(self.fork, self.at + 2)
    }

    // Where the next one starts.
    fn next(self) -> usize
        ensures { result ≡ self.entry.at + size_at self.entry.fork.now self.entry.at }
    {
        self.at + size(self.fork, self.at)
    }

    // Whether it has this name and these flags.
    fn has<'b>(self, key: Key<'b>) -> bool
        ensures { result ≡ is_key key.entry.name.now key.entry.flags (entry_at self.entry.fork.now self.entry.at) }
    {
        if key.flags != self.flags() {
            return false;
        }
        name::equal(key.name, self.name())
    }

    // A step that meets it, where the fork starts at s in the inode.
    fn step(self, s: usize) -> Step
        requires { s + length self.fork.now < 4096 }
        ensures { result ≡ live_step s self.entry.fork.now self.entry.at }
    {
        let name_len = be::be8(self.fork, self.at);
        let attr = Attr {
            flags: self.flags(),
            name_start: s + (self.at + 3),
            name_len,
            value_start: s + (self.at + 3 + name_len),
            value_len: be::be8(self.fork, self.at + 1),
        };
        let seen = Some(attr);
        let next = self.next();
        Step { next, seen }
    }
}

// Entries of a fork, one after the other, from a place on.
#[derive(Clone, Copy)]
struct Entries<'a> {
    fork: &'a [u8],
    from: usize,
    count: usize,
    end: usize,
    ghost inside: { end ≤ length fork.now },
    ghost tiling: { tiled (size_at fork.now) end count from ≡ true },
}

impl<'a> Entries<'a> {
    // Tests 6 and 7.
    fn check(self) -> Result<(), Refusal>
        ensures { code result ≡ own_verdict (entries self.entry.fork.now self.entry.count self.entry.from) }
    {
        let mut at = self.from;
        let mut flagged = true;
        for _ in 0..self.count {
            let entry = Entry {
                fork: self.fork,
                at,
            };
            if !name::attr_legal(entry.name()) {
                return Err(Refusal::Name);
            }
            flagged &= flags_legal(entry.flags());
            at = entry.next();
        }
        if flagged {
            return Ok(());
        }
        Err(Refusal::Number)
    }

    // Where the first with this name and flags starts.
    fn find<'b>(self, key: Key<'b>) -> Option<usize>
        ensures { result ≡ place_before self.entry.end (seek self.entry.fork.now key.entry.name.now key.entry.flags self.entry.count self.entry.from) }
    {
        let mut at = self.from;
        for _ in 0..self.count {
            let entry = Entry {
                fork: self.fork,
                at,
            };
            if entry.has(key) {
                return Some(at);
            }
            at = entry.next();
        }
        None
    }

    // Whether one of them has the name and the flags of another.
    fn again<'b>(self, other: Entry<'b>) -> bool
        ensures { result ≡ some_of
            (is_key (entry_at other.entry.fork.now other.entry.at).name (entry_at other.entry.fork.now other.entry.at).flags)
            (entries self.entry.fork.now self.entry.count self.entry.from) }
    {
        let key = Key {
            name: other.name(),
            flags: other.flags(),
        };
        self.find(key).is_some()
    }

    // Whether no two of them have the same name and flags.
    fn once(self) -> bool
        ensures { result ≡ distinct (entries self.entry.fork.now self.entry.count self.entry.from) }
    {
        let mut at = self.from;
        for i in 0..self.count {
            let entry = Entry {
                fork: self.fork,
                at,
            };
            let next = entry.next();
            let rest = Entries {
                fork: self.fork,
                from: next,
                count: self.count - i - 1,
                end: self.end,
            };
            if rest.again(entry) {
                return false;
            }
            at = next;
        }
        true
    }

    // Whether a place is the start of one of them, or their end.
    fn stand(self, place: usize) -> bool
        ensures { result ≡ stands (size_at self.entry.fork.now) self.entry.count self.entry.from place }
    {
        let mut at = self.from;
        for _ in 0..self.count {
            if place == at {
                return true;
            }
            let entry = Entry {
                fork: self.fork,
                at,
            };
            at = entry.next();
        }
        place == at
    }
}

// Tests 4 to 10 of a fork.
fn check_fork(f: &[u8]) -> Result<(), Refusal>
    ensures { code result ≡ fork_verdict f.now }
{
    if f.len() < HEADER {
        return Err(Refusal::Span);
    }
    let end = be::be16(f, 0);
    if (end < HEADER) | (f.len() < end) {
        return Err(Refusal::Span);
    }
    let count = be::be8(f, 2);
    if !tiles(f, count, end) {
        return Err(Refusal::Tile);
    }
    let entries = Entries {
        fork: f,
        from: HEADER,
        count,
        end,
    };
    entries.check()?;
    if !entries.once() {
        return Err(Refusal::Twice);
    }
    Ok(())
}

// What a set or a removal reads first: where the entry asked for starts (the entries' end when there is none), its size (0),
// how many entries are kept, and the entries' end.
// Kept: where there is none, the size is 0 and nothing more: no bytes are a run of bytes, and what follows has one way for both.
#[derive(Clone, Copy)]
struct Plan {
    at: usize,
    size: usize,
    kept: usize,
    end: usize,
}

// A fork that passes its tests.
#[derive(Clone, Copy)]
struct Accepted<'a> {
    fork: &'a [u8],
    ghost passes: { fork_verdict fork.now ≡ 0 },
}

impl<'a> Accepted<'a> {
    fn entries(self) -> Entries<'a>
        ensures bytes { result.fork.now ≡ self.entry.fork.now }
        ensures places { (result.from ≡ header)
            × ((result.count ≡ count self.entry.fork.now) × (result.end ≡ totsize self.entry.fork.now)) }
    {
        Entries {
            fork: self.fork,
            from: HEADER,
            count: be::be8(self.fork, 2),
            end: be::be16(self.fork, 0),
        }
    }

    // Where the entry with this name and flags starts.
    fn find<'b>(self, key: Key<'b>) -> Option<usize>
        ensures { result ≡ place_before (totsize self.entry.fork.now) (key_place self.entry.fork.now key.entry.name.now key.entry.flags) }
    {
        self.entries().find(key)
    }

    // Where its value lies, where the fork starts at s in the inode.
    fn lookup<'b>(self, s: usize, key: Key<'b>) -> Result<Place, Refusal>
        requires { s + length self.fork.now < 4096 }
        ensures { numbered result ≡ found_in s self.entry.fork.now key.entry.name.now key.entry.flags }
    {
        match self.find(key) {
            Some(at) => {
                let start = s + (at + 3 + be::be8(self.fork, at));
                let len = be::be8(self.fork, at + 1);
                Ok(Place { start, len })
            }
            None => Err(Refusal::Absent),
        }
    }

    // A step of the walk, where the fork starts at s in the inode.
    fn step(self, s: usize, place: usize) -> Result<Step, Refusal>
        requires { s + length self.fork.now < 4096 }
        ensures { numbered result ≡ walked_in s self.entry.fork.now place }
    {
        let entries = self.entries();
        if !entries.stand(place) {
            return Err(Refusal::Asked);
        }
        if place == entries.end {
            return Ok(Step {
                next: place,
                seen: None,
            });
        }
        let entry = Entry {
            fork: self.fork,
            at: place,
        };
        Ok(entry.step(s))
    }

    // What a set or a removal of this name with these flags reads first.
    fn plan<'b>(self, key: Key<'b>) -> Plan
        ensures { (result ≡ plan_of self.entry.fork.now key.entry.name.now key.entry.flags)
            × ((result.at + result.size ≤ result.end) × (result.end ≤ length self.entry.fork.now)) }
    {
        let end = be::be16(self.fork, 0);
        let count = be::be8(self.fork, 2);
        match self.find(key) {
            Some(at) => Plan {
                at,
                size: size(self.fork, at),
                kept: count - 1,
                end,
            },
            None => Plan {
                at: end,
                size: 0,
                kept: count,
                end,
            },
        }
    }
}

// Tests 1 to 10: where the attribute fork lies.
fn tested(e: Edition, b: &[u8]) -> Result<Fork, Refusal>
    requires { Sane e }
    ensures { numbered result ≡ fork_if (verdict e b.now) e b.now }
{
    let fork = dinode::fork_of_attributes(e, b)?;
    check_fork(&b[fork.start..])?;
    Ok(fork)
}

// Tests an inode and its attributes.
pub fn test(b: &[u8]) -> Result<(), Refusal>
    ensures { code result ≡ verdict v4 b.now }
{
    tested(V4::edition(), b)?;
    Ok(())
}

// The tests, then what was asked.
fn asked<'a, 'b>(e: Edition, b: &'a [u8], key: Key<'b>) -> Result<Fork, Refusal>
    requires { Sane e }
    ensures { numbered result ≡ fork_if (asked_code e b.now key.entry.name.now key.entry.flags) e b.now }
{
    let fork = tested(e, b)?;
    if !key.legal() {
        return Err(Refusal::Asked);
    }
    Ok(fork)
}

fn look<'a, 'b>(e: Edition, b: &'a [u8], key: Key<'b>) -> Result<Place, Refusal>
    requires { Sane e }
    ensures { numbered result ≡ lookup e b.now key.entry.name.now key.entry.flags }
{
    let fork = asked(e, b, key)?;
    let accepted = Accepted {
        fork: &b[fork.start..],
    };
    accepted.lookup(fork.start, key)
}

// Looks an attribute up: where its value lies in the inode.
pub fn lookup<'a, 'b>(b: &'a [u8], name: &'b [u8], flags: usize) -> Result<Place, Refusal>
    ensures { LookupPromise v4 b.now name.now flags (numbered result) }
{
    look(V4::edition(), b, Key { name, flags })
}

// The value in place, a part of the inode; an empty part at its start where the lookup is refused: lookup's answer tells that from an empty value.
pub fn value<'a, 'b>(b: &'a [u8], name: &'b [u8], flags: usize) -> &'a [u8]
    ensures contents { result.now ≡ part_of b.now (lookup v4 b.now name.now flags) }
    ensures place { (result.ref_ptr.0 ≡ b.entry.ref_ptr.0)
        × (result.ref_ptr.1 ≡ b.entry.ref_ptr.1 + start_of (lookup v4 b.now name.now flags)) }
    ensures long { length result.now ≡ length_of (lookup v4 b.now name.now flags) }
{
    match lookup(b, name, flags) {
        Ok(Place { start, len }) => &b[start..start + len],
        Err(_) => &b[0..0],
    }
}

fn walk_on(e: Edition, b: &[u8], place: usize) -> Result<Step, Refusal>
    requires { Sane e }
    ensures { numbered result ≡ walk_step e b.now place }
{
    let fork = tested(e, b)?;
    let accepted = Accepted {
        fork: &b[fork.start..],
    };
    accepted.step(fork.start, place)
}

// One step of the walk over an inode's attributes, from a place that is counted from the fork's start.
pub fn step_at(b: &[u8], place: usize) -> Result<Step, Refusal>
    ensures { StepPromise v4 b.now place (numbered result) }
{
    walk_on(V4::edition(), b, place)
}

// Takes s bytes at a place out of the entries, and zeroes what is unused then.
fn close(f: &mut [u8], end: usize, at: usize, s: usize)
    requires { (at + s ≤ end) × (end ≤ length f.old) }
    ensures { f.new ≡ closed f.old end at s }
{
    be::move_bytes(f, at + s, at, end - (at + s));
    f[end - s..].fill(0);
}

// Writes totsize and count; the pad byte is left alone.
fn head(f: &mut [u8], total: usize, n: usize)
    requires { header ≤ length f.old }
    ensures { f.new ≡ put (put f.old 0 (to_be 2 total)) 2 (to_be 1 n) }
{
    be::put16(f, 0, total);
    be::put8(f, 2, n);
}

// Writes an entry at a place.
fn write_entry<'a, 'b, 'c>(f: &'a mut [u8], at: usize, key: Key<'b>, value: &'c [u8])
    requires { ((at + 3 + length key.name.now + length value.now ≤ length f.old) × (key.flags < 256))
        × ((length key.name.now < 256) × (length value.now < 256)) }
    ensures { f.new ≡ put f.old at (entry_bytes (entry key.entry.flags key.entry.name.now value.now)) }
{
    let k = key.name.len();
    be::put8(f, at, k);
    be::put8(f, at + 1, value.len());
    be::put8(f, at + 2, key.flags);
    be::copy_into(f, at + 3, key.name);
    be::copy_into(f, at + 3 + k, value);
}

// Removes an entry from a fork that passes its tests.
fn remove_in<'a, 'b>(f: &'a mut [u8], key: Key<'b>) -> Result<(), Refusal>
    requires { fork_verdict f.old ≡ 0 }
    ensures { ForkRemoval f.old key.entry.name.now key.entry.flags (code result) f.new }
{
    let Plan {
        at,
        size,
        kept,
        end,
    } = Accepted { fork: &f[..] }.plan(key);
    if end <= at {
        return Err(Refusal::Absent);
    }
    close(f, end, at, size);
    head(f, end - size, kept);
    Ok(())
}

// Sets an entry in a fork that passes its tests.
fn set_in<'a, 'b, 'c>(f: &'a mut [u8], key: Key<'b>, value: &'c [u8]) -> Result<(), Refusal>
    requires { ((fork_verdict f.old ≡ 0) × (length f.old < 65536)) × ((length key.name.now < 256) × (key.flags < 256)) }
    ensures { ForkSet f.old key.entry.name.now key.entry.flags value.now (code result) f.new }
{
    let Plan {
        at,
        size,
        kept,
        end,
    } = Accepted { fork: &f[..] }.plan(key);
    if 255 < value.len() {
        return Err(Refusal::NoRoom);
    }
    if 254 < kept {
        return Err(Refusal::NoRoom);
    }
    let to = end - size;
    let total = to + 3 + key.name.len() + value.len();
    if f.len() < total {
        return Err(Refusal::NoRoom);
    }
    close(f, end, at, size);
    write_entry(f, to, key, value);
    head(f, total, kept + 1);
    Ok(())
}

fn take_out<'a, 'b>(e: Edition, b: &'a mut [u8], key: Key<'b>) -> Result<(), Refusal>
    requires { Sane e }
    ensures { (code result ≡ remove_code e b.old key.entry.name.now key.entry.flags)
        × (b.new ≡ remove_bytes e b.old key.entry.name.now key.entry.flags) }
{
    let fork = asked(e, &b[..], key)?;
    remove_in(&mut b[fork.start..], key)
}

// Removes an attribute; a refusal leaves every byte as it was.
pub fn remove<'a, 'b>(b: &'a mut [u8], name: &'b [u8], flags: usize) -> Result<(), Refusal>
    ensures { (code result ≡ remove_code v4 b.old name.now flags)
        × (b.new ≡ remove_bytes v4 b.old name.now flags) }
{
    take_out(V4::edition(), b, Key { name, flags })
}

fn put_in<'a, 'b, 'c>(
    e: Edition,
    b: &'a mut [u8],
    key: Key<'b>,
    value: &'c [u8],
) -> Result<(), Refusal>
    requires { Sane e }
    ensures { (code result ≡ set_code e b.old key.entry.name.now key.entry.flags value.now)
        × (b.new ≡ set_bytes e b.old key.entry.name.now key.entry.flags value.now) }
{
    let fork = asked(e, &b[..], key)?;
    set_in(&mut b[fork.start..], key, value)
}

// Sets an attribute: an equal one goes, and the new one stands at the end. A refusal leaves every byte as it was.
pub fn set<'a, 'b, 'c>(
    b: &'a mut [u8],
    name: &'b [u8],
    flags: usize,
    value: &'c [u8],
) -> Result<(), Refusal>
    ensures { (code result ≡ set_code v4 b.old name.now flags value.now)
        × (b.new ≡ set_bytes v4 b.old name.now flags value.now) }
{
    put_in(V4::edition(), b, Key { name, flags }, value)
}
