// Lookup and the walk in a block directory. Each public call tests the block once; the inner functions take a tested one.
#![tactic(auto)]

ghost use Rattle.std.specs.Prelude.{◌≡◌, true, ◌+◌, ◌≤◌, length, take, drop, IsNone};
ghost use Rattle.be.specs.Bytes.{byte};
ghost use Rattle.edition.specs.Edition.{v4, Sane};
ghost use Rattle.refusal.specs.Refusal.{numbered};
ghost use Rattle.name.specs.Name.{hash_of, same_name};
ghost use Rattle.dir_block_rules.specs.Block.{records, data_end, count_of, slots};
ghost use Rattle.dir_block_rules.specs.Lookup.{sought, name_at, target_at, lookup, LookupPromise};
ghost use Rattle.dir_block_rules.specs.Walk.{is_place, walk_step, StepPromise};
ghost use Rattle.dir_block_laws.specs.Pass.{Place, Steps};
ghost use Rattle.dir_block_laws.specs.Tiled.{Ready};
ghost use Rattle.dir_block_laws.specs.SlotIndex.{all_below, all_from};
ghost use Rattle.dir_block_lookup.specs.Hit.{found_as, missed};

use dir::{Entry, Looked, Seen, Step, Target};
use edition::{Edition, V4};
use refusal::Refusal;

// Whether the entry at offset o has the name.
fn named(e: Edition, b: &[u8], o: usize, name: &[u8]) -> bool
    requires { o + 9 + byte (o + 8) b.now ≤ length b.now }
    ensures { result ≡ same_name e name.now (name_at b.now o) }
{
    let n = be::be8(b, o + 8);
    let from = o + 9;
    let end = from + n;
    name::matches(e, name, &b[from..end])
}

// What the name of the entry at offset o stands for.
fn target_at(e: Edition, b: &[u8], o: usize) -> Target
    requires { Sane e × (o + 9 + byte (o + 8) b.now + e.ftype ≤ length b.now) }
    ensures { result ≡ target_at e b.now o }
{
    let inode = be::be64(b, o);
    let n = be::be8(b, o + 8);
    let kind = dir::kind(e, b, o + 9 + n);
    Target { inode, kind }
}

// The first slot whose hash is not below h: by halves.
// Kept: the library searches slices, and the slots are bytes of the block; there is no heap to copy them to. That the block is tested is asked of
// callers, here and below: changes hold it as `&mut [u8]`, and no type can keep a fact of bytes that are written.
pub fn first_slot(e: Edition, b: &[u8], end: usize, count: usize, h: usize) -> usize
    requires sane { Sane e × Ready e b.now }
    requires end_value { (end ≡ data_end b.now) × (count ≡ count_of b.now) }
    ensures { (result ≤ count) × ((all_below h (take result (slots b.now)) ≡ true)
        × (all_from h (drop result (slots b.now)) ≡ true)) }
{
    let mut lo = 0;
    let mut hi = count;
    while lo < hi {
        let mid = lo + (hi - lo) / 2;
        if be::be32(b, end + 8 * mid) < h {
            lo = mid + 1;
        } else {
            hi = mid;
        }
    }
    lo
}

// A slot whose entry has the name sought: the slot's index and the entry's offset.
#[derive(Clone, Copy)]
pub struct Hit {
    pub index: usize,
    pub at: usize,
}

// What a search finds, and how many names it compared.
#[derive(Clone, Copy)]
pub struct Search {
    pub found: Option<Hit>,
    pub compared: usize,
}

// The search for a name: the run of slots with its hash h, up to the slot whose entry has the name.
pub fn seek(e: Edition, b: &[u8], end: usize, count: usize, name: &[u8], h: usize) -> Search
    requires sane { Sane e × Ready e b.now }
    requires end_value { (end ≡ data_end b.now) × (count ≡ count_of b.now) }
    requires h_value { h ≡ hash_of e name.now }
    ensures found { result ≡ found_as (sought e b.now name.now) }
    ensures miss { IsNone result.found → sought e b.now name.now ≡ missed count result.compared }
{
    let mut compared = 0;
    for i in first_slot(e, b, end, count, h)..count {
        if be::be32(b, end + 8 * i) != h {
            break;
        }
        let a = be::be32(b, end + 8 * i + 4);
        if a != 0 {
            compared += 1;
            if named(e, b, 8 * a, name) {
                return Search {
                    found: Some(Hit {
                        index: i,
                        at: 8 * a,
                    }),
                    compared,
                };
            }
        }
    }
    Search {
        found: None,
        compared,
    }
}

// Where the data of a tested block ends.
pub fn end_of_data(e: Edition, b: &[u8]) -> usize
    requires { Sane e × Ready e b.now }
    ensures { result ≡ data_end b.now }
{
    let n = b.len();
    n - 8 - 8 * be::be32(b, n - 8)
}

// The lookup of a name, whose hash is h, in a tested block. A name that is found is legal, as every stored name is: only one that is not
// found is looked at for that.
fn lookup_ready(e: Edition, b: &[u8], name: &[u8], h: usize) -> Result<Looked, Refusal>
    requires sane { Sane e × Ready e b.now }
    requires h_value { h ≡ hash_of e name.now }
    ensures { numbered result ≡ lookup e b.now name.now }
{
    let n = b.len();
    let count = be::be32(b, n - 8);
    let s = seek(e, b, n - 8 - 8 * count, count, name, h);
    if let Some(hit) = s.found {
        let target = target_at(e, b, hit.at);
        return Ok(Looked::Found {
            target,
            tag: hit.at,
            compared: s.compared,
        });
    }
    if !name::legal(e, name) {
        return Err(Refusal::Asked);
    }
    Ok(Looked::Absent {
        compared: s.compared,
    })
}

fn lookup_in(e: Edition, b: &[u8], name: &[u8]) -> Result<Looked, Refusal>
    requires { Sane e }
    ensures { numbered result ≡ lookup e b.now name.now }
{
    dir_block_test::check(e, b)?;
    // Too long to be a name, and not hashed.
    if 255 < name.len() {
        return Err(Refusal::Asked);
    }
    lookup_ready(e, b, name, name_words::hash(e, name))
}

// The lookup of a name in a block of the V4 edition.
pub fn lookup(b: &[u8], name: &[u8]) -> Result<Looked, Refusal>
    ensures { LookupPromise v4 b.now name.now (numbered result) }
{
    lookup_in(V4::edition(), b, name)
}

// One step of the walk over a tested block, from a place.
pub fn step_ready(e: Edition, b: &[u8], end: usize, p: usize) -> Step
    requires sane { Sane e × Ready e b.now }
    requires end_value { (end ≡ data_end b.now) × Place e b.now p }
    ensures { Steps e b.now p result }
{
    if end <= p {
        return Step {
            next: p,
            seen: Seen::End,
        };
    }
    if be::be16(b, p) == 0xffff {
        let n = be::be16(b, p + 2);
        return Step {
            next: p + n,
            seen: Seen::Gap,
        };
    }
    let target = target_at(e, b, p);
    let len = be::be8(b, p + 8);
    let size = edition::entry_size(e, len);
    let next = p + size;
    let entry = Entry {
        target,
        tag: p,
        start: p + 9,
        len,
    };
    Step {
        next,
        seen: Seen::Live(entry),
    }
}

// Whether p is a record's tag or the data's end, found by walking there.
fn stands(e: Edition, b: &[u8], end: usize, p: usize) -> bool
    requires sane { Sane e × Ready e b.now }
    requires end_value { end ≡ data_end b.now }
    ensures { (result ≡ is_place p (data_end b.now) (records e b.now)) × (result ≡ true → Place e b.now p) }
{
    let mut o = e.header;
    while o < p {
        if end <= o {
            return false;
        }
        o = step_ready(e, b, end, o).next;
    }
    o == p
}

fn step_in(e: Edition, b: &[u8], p: usize) -> Result<Step, Refusal>
    requires { Sane e }
    ensures { numbered result ≡ walk_step e b.now p }
{
    dir_block_test::check(e, b)?;
    let end = end_of_data(e, b);
    if !stands(e, b, end, p) {
        return Err(Refusal::Asked);
    }
    Ok(step_ready(e, b, end, p))
}

// One step of the walk over a block of the V4 edition.
pub fn step(b: &[u8], p: usize) -> Result<Step, Refusal>
    ensures { StepPromise v4 b.now p (numbered result) }
{
    step_in(V4::edition(), b, p)
}
