// Short-form directories: test, lookup and walk step, in the inode.
#![tactic(auto)]

ghost use Rattle.std.specs.Prelude.{◌≡◌, true, cond, not, ◌&&◌, ◌+◌, ◌≤◌, ◌<◌, length, IsNone};
ghost use Rattle.be.specs.Bytes.{byte, field};
ghost use Rattle.records.specs.Records.{start};
ghost use Rattle.edition.specs.Edition.{v4, Sane};
ghost use Rattle.name.specs.Name.{legal_name, fixed_name};
ghost use Rattle.dinode.specs.Core.{directory_code, data_length};
ghost use Rattle.dir_sf.specs.Entry.{width_of, entries_in, size_at, is_wide, wides_of};
ghost use Rattle.dir_sf.specs.Fork.{place_of, count_of, parent, entries, names_ok, numbers_ok, once_ok, holds, used_width, used_verdict, fork_verdict};
ghost use Rattle.dir_sf.specs.Inode.{used, verdict, looked, lookup, LookupPromise};
ghost use Rattle.dir_sf.specs.Walk.{walk_step, StepPromise};
ghost use Rattle.refusal.specs.Refusal.{code, numbered};
ghost use Rattle.dir_sf.specs.Inner.{enough, Readable, tiles, hit_of, hits, missed, seek, walked_in};
ghost use Rattle.dir.specs.Target.{target};

use dir::{Entry, Looked, Seen, Step, Target};
use edition::{Edition, V4};
use refusal::Refusal;

// ---- the parts of an entry

// Bytes of a number, where so many are wide.
pub fn width(wides: usize) -> usize
    ensures { (result ≡ width_of wides) × (result ≤ 8) }
{
    if wides == 0 {
        return 4;
    }
    8
}

// Bytes of an entry behind its name.
pub fn rest(e: Edition, wides: usize) -> usize
    requires { Sane e }
    ensures { (result ≡ e.ftype + width_of wides) × (result ≤ 9) }
{
    e.ftype + width(wides)
}

// The number at an offset.
fn number(u: &[u8], o: usize, wides: usize) -> u64
    requires { o + width_of wides ≤ length u.now }
    ensures { result ≡ field o (width_of wides) u.now }
{
    if wides == 0 {
        return be::be32(u, o) as u64;
    }
    be::be64(u, o)
}

// The length of the name of the entry at p, which lies in u.
pub fn namelen(e: Edition, u: &[u8], p: usize, wides: usize) -> usize
    requires { enough e (width_of wides) u.now 1 p ≡ true }
    ensures { (result ≡ byte p u.now) × (result < 256) × (p + 3 + result + (e.ftype + width_of wides) ≤ length u.now) }
{
    be::be8(u, p)
}

// An entry as it is stored: where it starts, its tag, its name, and what that stands for.
#[derive(Clone, Copy)]
pub struct StoredEntry<'a> {
    pub at: usize,
    pub tag: usize,
    pub name: &'a [u8],
    pub target: Target,
    pub ghost tagged: { tag < 65536 },
    pub ghost short: { length name.now < 256 },
}

// Entries that lie end to end in used bytes: those that are left, the first of them at `at`.
#[derive(Clone, Copy)]
pub struct Entries<'a> {
    pub edition: Edition,
    pub bytes: &'a [u8],
    pub wides: usize,
    pub at: usize,
    pub left: usize,
    pub ghost sane: { Sane edition },
    pub ghost lie: { enough edition (width_of wides) bytes.now left at ≡ true },
}

impl<'a> Iterator for Entries<'a> {
    ghost use Rattle.std.specs.Iterator.{item_count};
    ghost use Rattle.dir_sf.specs.Left.{left, Gives};

    type Item = StoredEntry<'a>;

    ghost next_gives = { Gives };

    ghost remaining = { item_count left };

    #[inline(always)]
    fn next(&mut self) -> Option<StoredEntry<'a>> {
        if self.left == 0 {
            return None;
        }
        let at = self.at;
        let n = namelen(self.edition, self.bytes, at, self.wides);
        let end = at + 3 + n;
        let tag = be::be16(self.bytes, at + 1);
        let target = target_at(self.edition, self.bytes, end, self.wides);
        self.at = end + rest(self.edition, self.wides);
        self.left -= 1;
        Some(StoredEntry {
            at,
            tag,
            name: &self.bytes[at + 3..end],
            target,
        })
    }
}

impl<'a> Entries<'a> {
    ghost use Rattle.dir_sf.specs.Left.{left, placed, From, bare, first_hit};

    // Those of used bytes that pass the tests.
    pub fn of(e: Edition, u: &'a [u8]) -> Entries<'a>
        requires { Sane e × Readable e u.now }
        ensures { (result.edition ≡ e) × (left result ≡ placed e u.now) × From u.now result }
    {
        let wides = be::be8(u, 1);
        Entries {
            edition: e,
            bytes: u,
            wides,
            at: 2 + width(wides),
            left: be::be8(u, 0),
        }
    }

    // The first entry of a name.
    fn find(self, name: &[u8]) -> Option<Hit>
        ensures { result ≡ first_hit self.entry.edition name.now 0 (left self.entry) }
    {
        let e = self.edition;
        for (index, x) in self.enumerate() {
            if name::matches(e, name, x.name) {
                return Some(Hit {
                    index,
                    at: x.at,
                    target: x.target,
                    tag: x.tag,
                });
            }
        }
        None
    }

    // Whether an entry bears a name.
    fn holds(mut self, name: &[u8]) -> bool
        ensures { result ≡ holds self.entry.edition name.now (bare (left self.entry)) }
    {
        let e = self.edition;
        self.any(|x| name::matches(e, name, x.name))
    }

    // NAME.
    fn named(mut self) -> bool
        ensures { result ≡ names_ok self.entry.edition (bare (left self.entry)) }
    {
        let e = self.edition;
        self.all(|x| storable(e, x.name))
    }

    // NUMBER, of a parent and the entries.
    fn numbered(mut self, parent: u64) -> bool
        ensures { result ≡ numbers_ok parent (bare (left self.entry)) }
    {
        name::number_legal(parent) && self.all(|x| name::number_legal(x.target.inode))
    }

    // How many numbers are wide, the parent's among them.
    fn count_wide(self, parent: u64) -> usize
        requires { self.left < 256 }
        ensures { result ≡ wides_of parent (bare (left self.entry)) }
    {
        let mut c = one_if_wide(parent);
        for x in self {
            c += one_if_wide(x.target.inode);
        }
        c
    }

    // TWICE.
    fn once(mut self) -> bool
        ensures { result ≡ once_ok self.entry.edition (bare (left self.entry)) }
    {
        while let Some(x) = self.next() {
            if self.holds(x.name) {
                return false;
            }
        }
        true
    }
}

// What stands behind a name that ends at an offset: file type and number.
fn target_at(e: Edition, u: &[u8], o: usize, wides: usize) -> Target
    requires { Sane e × (o + (e.ftype + width_of wides) ≤ length u.now) }
    ensures { result ≡ target (field (o + e.ftype) (width_of wides) u.now) (field o e.ftype u.now) }
{
    let kind = dir::kind(e, u, o);
    let inode = number(u, o + e.ftype, wides);
    Target { inode, kind }
}

// ---- the tests

// TILE: the k entries from `at` on fill u, and their tags are right.
fn tiled(e: Edition, u: &[u8], at: usize, k: usize, wides: usize, told: usize) -> bool
    requires { Sane e × (at ≤ length u.now) × (k < 256) }
    ensures { result ≡ tiles e (width_of wides) told k e.first u.now k at }
{
    let mut p = at;
    let mut low = e.first;
    let w = rest(e, wides);
    for _ in 0..k {
        if u.len() - p < 3 + w {
            return false;
        }
        let n = be::be8(u, p);
        if u.len() - p < 3 + n + w {
            return false;
        }
        let tag = be::be16(u, p + 1);
        if tag % 8 != 0 {
            return false;
        }
        if tag < low {
            return false;
        }
        low = tag + edition::entry_size(e, n);
        p = p + 3 + n + w;
    }
    if p != u.len() {
        return false;
    }
    low + 8 * (k + 2) + 8 <= told
}

// Whether a name may be stored.
fn storable(e: Edition, s: &[u8]) -> bool
    ensures { result ≡ (legal_name e s.now && not (fixed_name s.now)) }
{
    name::legal(e, s) & !name::fixed(s)
}

// 1 for a number that takes 8 bytes, else 0.
pub fn one_if_wide(i: u64) -> usize
    ensures { (result ≡ cond (is_wide i) 1 0) × (result ≤ 1) }
{
    usize::from(4294967295 < i)
}

// Tests 5 to 10 of the used bytes.
fn check_used(e: Edition, u: &[u8], told: usize) -> Result<(), Refusal>
    requires { Sane e × (2 + used_width u.now ≤ length u.now) }
    ensures { code result ≡ used_verdict e told u.now }
{
    let k = be::be8(u, 0);
    let wides = be::be8(u, 1);
    let at = 2 + width(wides);
    if !tiled(e, u, at, k, wides, told) {
        return Err(Refusal::Tile);
    }
    let entries = Entries {
        edition: e,
        bytes: u,
        wides,
        at,
        left: k,
    };
    if !entries.named() {
        return Err(Refusal::Name);
    }
    let parent = number(u, 2, wides);
    if !entries.numbered(parent) {
        return Err(Refusal::Number);
    }
    if wides != entries.count_wide(parent) {
        return Err(Refusal::Index);
    }
    if !entries.once() {
        return Err(Refusal::Twice);
    }
    Ok(())
}

// Tests 4 to 10 of a fork.
fn check_fork(e: Edition, f: &[u8], size: usize, told: usize) -> Result<(), Refusal>
    requires { Sane e × (2 ≤ length f.now) }
    ensures { code result ≡ fork_verdict e told f.now size }
{
    let wides = be::be8(f, 1);
    if size < 2 + width(wides) {
        return Err(Refusal::Span);
    }
    if f.len() < size {
        return Err(Refusal::Span);
    }
    check_used(e, &f[..size], told)
}

// How long the data fork of a directory's inode is.
pub fn fork_long(e: Edition, b: &[u8]) -> usize
    requires { Sane e × (directory_code e b.now ≡ 0) }
    ensures { (result ≡ data_length e b.now) × (8 ≤ result) × (result ≤ 1948) × (e.literal + result ≤ length b.now) }
{
    dinode::data_long(e, b)
}

// Tests 1 to 10.
pub fn check(e: Edition, b: &[u8], told: usize) -> Result<(), Refusal>
    requires { Sane e }
    ensures { code result ≡ verdict e told b.now }
{
    if !edition::block_sized(told) {
        return Err(Refusal::Size);
    }
    let fork = dinode::fork_of_directory(e, b)?;
    let end = fork.start + fork.len;
    let size = be::be64(b, dinode::SIZE_PLACE) as usize;
    check_fork(e, &b[fork.start..end], size, told)
}

// Tests the directory in an inode.
pub fn test(b: &[u8], told: usize) -> Result<(), Refusal>
    ensures { code result ≡ verdict v4 told b.now }
{
    check(V4::edition(), b, told)
}

// The used bytes of the fork, in an inode that passes the tests.
pub fn used<'a>(e: Edition, b: &'a [u8], told: usize) -> &'a [u8]
    requires { Sane e × (verdict e told b.now ≡ 0) }
    ensures { (result.now ≡ used e b.now) × (length result.now ≤ 1948) }
{
    let start = e.literal;
    let end = start + be::be64(b, dinode::SIZE_PLACE) as usize;
    &b[start..end]
}

// ---- what is read of used bytes that pass the tests

// The parent's number.
pub fn parent_of(u: &[u8]) -> u64
    requires { 2 + used_width u.now ≤ length u.now }
    ensures { result ≡ parent u.now }
{
    number(u, 2, be::be8(u, 1))
}

// The first entry of a name: how many stand before it, where it starts, what it stands for, its tag.
#[derive(Clone, Copy)]
pub struct Hit {
    pub index: usize,
    pub at: usize,
    pub target: Target,
    pub tag: usize,
}

// Searches for the first entry of a name.
pub fn seek_name<'a, 'b>(e: Edition, u: &'a [u8], name: &'b [u8]) -> Option<Hit>
    requires { Sane e × Readable e u.now }
    ensures found { result ≡ hits e name.now u.now }
    ensures miss { IsNone result → hit_of e name.now u.now ≡ missed e u.now }
{
    Entries::of(e, u).find(name)
}

// Where the entry after the one at a place starts.
pub fn next_of(e: Edition, u: &[u8], at: usize, index: usize) -> usize
    requires { Sane e × Readable e u.now × (index < count_of u.now) × (at ≡ place_of e index u.now) }
    ensures { result ≡ place_of e (index + 1) u.now }
{
    let wides = be::be8(u, 1);
    let n = namelen(e, u, at, wides);
    at + 3 + n + rest(e, wides)
}

// ---- lookup

// A lookup in the used bytes.
fn look<'a, 'b>(e: Edition, u: &'a [u8], name: &'b [u8]) -> Result<Looked, Refusal>
    requires { Sane e × Readable e u.now }
    ensures { numbered result ≡ looked e name.now (parent u.now) (entries e u.now) }
{
    if !name::legal(e, name) {
        return Err(Refusal::Asked);
    }
    if name::equal(name, b".") {
        return Err(Refusal::Fixed);
    }
    if name::equal(name, b"..") {
        let parent = Target {
            inode: parent_of(u),
            kind: 2,
        };
        return Ok(Looked::Found {
            target: dir::kept(e, parent),
            tag: 0,
            compared: 0,
        });
    }
    Ok(match seek_name(e, u, name) {
        Some(h) => Looked::Found {
            target: h.target,
            tag: h.tag,
            compared: 0,
        },
        None => Looked::Absent { compared: 0 },
    })
}

fn look_up<'a, 'b>(e: Edition, b: &'a [u8], told: usize, name: &'b [u8]) -> Result<Looked, Refusal>
    requires { Sane e }
    ensures { numbered result ≡ lookup e told b.now name.now }
{
    check(e, b, told)?;
    look(e, used(e, b, told), name)
}

// What a name stands for, and its entry's tag; ".." gives the parent, and tag 0.
pub fn lookup<'a, 'b>(b: &'a [u8], told: usize, name: &'b [u8]) -> Result<Looked, Refusal>
    ensures { LookupPromise v4 told b.now name.now (numbered result) }
{
    look_up(V4::edition(), b, told, name)
}

// ---- the walk

// One step of the walk over the used bytes.
fn step_over(e: Edition, u: &[u8], place: usize) -> Result<Step, Refusal>
    requires { Sane e × Readable e u.now × (length u.now ≤ 1948) }
    ensures { numbered result ≡ walked_in e u.now place }
{
    let mut entries = Entries::of(e, u);
    while let Some(x) = entries.next() {
        if place == x.at {
            let tag = x.tag;
            let live = Entry {
                target: x.target,
                tag,
                start: e.literal + (x.at + 3),
                len: x.name.len(),
            };
            return Ok(Step {
                next: entries.at,
                seen: Seen::Live(live),
            });
        }
    }
    if place == entries.at {
        return Ok(Step {
            next: place,
            seen: Seen::End,
        });
    }
    Err(Refusal::Asked)
}

fn walk_from(e: Edition, b: &[u8], told: usize, place: usize) -> Result<Step, Refusal>
    requires { Sane e }
    ensures { numbered result ≡ walk_step e told b.now place }
{
    check(e, b, told)?;
    step_over(e, used(e, b, told), place)
}

// One step of the walk, from a place counted from the fork's start. The first place is behind the header: 6, or 10 where i8count is not 0.
pub fn step_at(b: &[u8], told: usize, place: usize) -> Result<Step, Refusal>
    ensures { StepPromise v4 told b.now place (numbered result) }
{
    walk_from(V4::edition(), b, told, place)
}
