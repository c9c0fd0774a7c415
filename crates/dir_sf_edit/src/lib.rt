// Changes of short-form directories: insert and removal, in the inode.
#![tactic(auto)]

ghost use Rattle.std.specs.Prelude.{◌≡◌, true, cond, ◌∷◌, ◌++◌, ◌+◌, ◌-◌, ◌≤◌, ◌<◌, length, take, drop};
ghost use Rattle.refusal.specs.Refusal.{code};
ghost use Rattle.be.specs.Bytes.{byte, put, to_be};
ghost use Rattle.records.specs.Records.{start};
ghost use Rattle.edition.specs.Edition.{v4, Sane};
ghost use Rattle.dinode.specs.Core.{size_place};
ghost use Rattle.dir.specs.Target.{target};
ghost use Rattle.dir_sf.specs.Entry.{entry, width_of, entry_at, entries_in, size_at, entry_bytes, entries_bytes, is_wide, end_tag};
ghost use Rattle.dir_sf.specs.Fork.{place_of, used_width, laid, lay, holds, count_of, parent, entries};
ghost use Rattle.dir_sf.specs.Change.{gap_tag, tag_for, is_free, placed, inserted, insert_request, removed, remove_request};
ghost use Rattle.dir_sf.specs.Inner.{enough, Readable};
ghost use Rattle.dir_sf.specs.Left.{left, bare};
ghost use Rattle.dir_sf_edit.specs.Inner.{rank, with_nth, without_nth};
ghost use Rattle.dir_sf.specs.Inode.{used, insert_code, remove_code, with_entries, insert_bytes, remove_bytes};

use dir::Target;
use dir_sf::Entries;
use edition::{Edition, V4};
use refusal::Refusal;

// ---- entries stored

// Stores a number at an offset.
fn put_number(b: &mut [u8], o: usize, v: u64, wides: usize)
    requires { o + width_of wides ≤ length b.old }
    ensures { b.new ≡ put b.old o (to_be (width_of wides) v) }
{
    if wides == 0 {
        be::put32(b, o, v as usize);
        return;
    }
    be::put64(b, o, v);
}

// Stores what stands behind an entry's name, and gives where it ends.
fn put_rest(e: Edition, b: &mut [u8], o: usize, to: Target, wides: usize) -> usize
    requires { Sane e × (o + (e.ftype + width_of wides) ≤ length b.old) }
    ensures { (b.new ≡ put b.old o (to_be e.ftype to.kind ++ to_be (width_of wides) to.inode))
        × (result ≡ o + (e.ftype + width_of wides)) }
{
    dir::put_kind(e, b, o, to.kind);
    put_number(b, o + e.ftype, to.inode, wides);
    o + dir_sf::rest(e, wides)
}

// Stores an entry at an offset, and gives where it ends.
fn put_entry<'a, 'b>(
    e: Edition,
    b: &'a mut [u8],
    o: usize,
    name: &'b [u8],
    tag: usize,
    to: Target,
    wides: usize,
) -> usize
    requires { Sane e × (o + (3 + length name.now + (e.ftype + width_of wides)) ≤ length b.old) × (length name.now < 256) }
    ensures { (b.new ≡ put b.old o (entry_bytes e (width_of wides) (entry tag name.now to)))
        × (result ≡ o + (3 + length name.now + (e.ftype + width_of wides))) }
{
    let n = name.len();
    be::put8(b, o, n);
    be::put16(b, o + 1, tag);
    be::copy_into(b, o + 3, name);
    put_rest(e, b, o + 3 + n, to, wides)
}

// Copies entries to an offset, their numbers in another width. Gives where they end.
fn copy_entries<'a, 'b>(b: &'a mut [u8], to: usize, entries: Entries<'b>, after: usize) -> usize
    requires { to + length (entries_bytes entries.edition (width_of after) (bare (left entries))) ≤ length b.old }
    ensures { (b.new
        ≡ put b.old to (entries_bytes entries.entry.edition (width_of after) (bare (left entries.entry))))
        × (result ≡ to + length (entries_bytes entries.entry.edition (width_of after) (bare (left entries.entry)))) }
{
    let e = entries.edition;
    let mut o = to;
    for x in entries {
        o = put_entry(e, b, o, x.name, x.tag, x.target, after);
    }
    o
}

// ---- a directory laid out anew

// Stores a header, and gives where it ends.
fn put_header(t: &mut [u8], k: usize, wides: usize, parent: u64) -> usize
    requires { (2 + width_of wides ≤ length t.old) × (k < 256) × (wides < 256) }
    ensures { (t.new ≡ put t.old 0 (k ∷ wides ∷ to_be (width_of wides) parent)) × (result ≡ 2 + width_of wides) }
{
    be::put8(t, 0, k);
    be::put8(t, 1, wides);
    put_number(t, 2, parent, wides);
    2 + dir_sf::width(wides)
}

// Copies the first `index` entries of u to an offset, their numbers in another width. Gives where they end.
fn copy_first<'a, 'b>(
    e: Edition,
    t: &'a mut [u8],
    o: usize,
    u: &'b [u8],
    index: usize,
    after: usize,
) -> usize
    requires { Sane e × Readable e u.now × (index ≤ count_of u.now)
        × (o + length (entries_bytes e (width_of after) (take index (entries e u.now))) ≤ length t.old) }
    ensures { (t.new ≡ put t.old o (entries_bytes e (width_of after) (take index (entries e u.now))))
        × (result ≡ o + length (entries_bytes e (width_of after) (take index (entries e u.now)))) }
{
    let wides = be::be8(u, 1);
    let first = Entries {
        edition: e,
        bytes: u,
        wides,
        at: 2 + dir_sf::width(wides),
        left: index,
    };
    copy_entries(t, o, first, after)
}

// Lays out a header and the first `index` entries of u. Gives where they end.
fn lay_first<'a, 'b>(
    e: Edition,
    t: &'a mut [u8],
    u: &'b [u8],
    index: usize,
    count: usize,
    after: usize,
) -> usize
    requires { Sane e × Readable e u.now × (index ≤ count_of u.now) × (count < 256) × (after < 256)
        × (length (laid e count after (parent u.now) (take index (entries e u.now))) ≤ length t.old) }
    ensures { (t.new ≡ put t.old 0 (laid e count after (parent u.now) (take index (entries e u.now))))
        × (result ≡ length (laid e count after (parent u.now) (take index (entries e u.now)))) }
{
    let parent = dir_sf::parent_of(u);
    let o = put_header(t, count, after, parent);
    copy_first(e, t, o, u, index, after)
}

// Copies the others: the entries from place `at` on, which has `index` before it.
fn copy_others<'a, 'b>(
    e: Edition,
    t: &'a mut [u8],
    o: usize,
    u: &'b [u8],
    at: usize,
    index: usize,
    after: usize,
) -> usize
    requires { Sane e × Readable e u.now × (index ≤ count_of u.now) × (at ≡ place_of e index u.now)
        × (o + length (entries_bytes e (width_of after) (drop index (entries e u.now))) ≤ length t.old) }
    ensures { (t.new ≡ put t.old o (entries_bytes e (width_of after) (drop index (entries e u.now))))
        × (result ≡ o + length (entries_bytes e (width_of after) (drop index (entries e u.now)))) }
{
    let k = be::be8(u, 0);
    let others = Entries {
        edition: e,
        bytes: u,
        wides: be::be8(u, 1),
        at,
        left: k - index,
    };
    copy_entries(t, o, others, after)
}

// Writes a size and the data fork back: the first n bytes of t.
// Kept: the new fork is laid out in 2,048 bytes, of which n count: the library has fixed memory and no heap.
fn write_back<'a, 'b>(e: Edition, b: &'a mut [u8], t: &'b [u8], n: usize, size: usize)
    requires { Sane e × (n ≤ length t.now) × (e.literal + n ≤ length b.old) }
    ensures { b.new ≡ put (put b.old size_place (to_be 8 size)) e.literal (take n t.now) }
{
    be::put64(b, dinode::SIZE_PLACE, size as u64);
    be::copy_into(b, e.literal, &t[..n]);
}

// ---- removal

// Lays out the directory in u without the entry at `at`, which has `index` before it. Gives its size.
fn lay_without<'a, 'b>(
    e: Edition,
    t: &'a mut [u8],
    u: &'b [u8],
    index: usize,
    at: usize,
    after: usize,
) -> usize
    requires { Sane e × Readable e u.now × (index < count_of u.now) × (at ≡ place_of e index u.now) × (after < 256)
        × (length (laid e (count_of u.now - 1) after (parent u.now) (without_nth index (entries e u.now))) ≤ length t.old) }
    ensures { (t.new
        ≡ put t.old 0 (laid e (count_of u.now - 1) after (parent u.now)
        (without_nth index (entries e u.now))))
        × (result ≡ length (laid e (count_of u.now - 1) after (parent u.now) (without_nth index (entries e u.now)))) }
{
    let m = lay_first(e, t, u, index, be::be8(u, 0) - 1, after);
    let next = dir_sf::next_of(e, u, at, index);
    copy_others(e, t, m, u, next, index + 1, after)
}

// i8count with a number out; a wide parent still counts.
fn wides_without(u: &[u8], gone: u64) -> usize
    requires { (2 + used_width u.now ≤ length u.now) × (cond (is_wide gone) 1 0 ≤ byte 1 u.now) }
    ensures { (result ≡ byte 1 u.now - cond (is_wide gone) 1 0) × (result < 256) }
{
    be::be8(u, 1) - dir_sf::one_if_wide(gone)
}

// Lays out the directory in u without the entry of a name. Gives its size.
fn shrink<'a, 'b, 'c>(e: Edition, t: &'a mut [u8], u: &'b [u8], name: &'c [u8]) -> usize
    requires { Sane e × Readable e u.now × (holds e name.now (entries e u.now) ≡ true)
        × (length (lay e (parent u.now) (removed e name.now (entries e u.now))) ≤ length t.old) }
    ensures { (t.new
        ≡ put t.old 0 (lay e (parent u.now) (removed e name.now (entries e u.now))))
        × (result ≡ length (lay e (parent u.now) (removed e name.now (entries e u.now)))) }
{
    let h = dir_sf::seek_name(e, u, name).unwrap();
    let after = wides_without(u, h.target.inode);
    lay_without(e, t, u, h.index, h.at, after)
}

// What refuses a removal, in a directory that passes the tests.
fn check_removal<'a, 'b>(e: Edition, u: &'a [u8], name: &'b [u8]) -> Result<(), Refusal>
    requires { Sane e × Readable e u.now }
    ensures { code result ≡ remove_request e name.now (entries e u.now) }
{
    if !name::legal(e, name) {
        return Err(Refusal::Asked);
    }
    if name::fixed(name) {
        return Err(Refusal::Fixed);
    }
    if dir_sf::seek_name(e, u, name).is_none() {
        return Err(Refusal::Absent);
    }
    Ok(())
}

// What refuses a removal.
fn check_remove<'a, 'b>(e: Edition, b: &'a [u8], told: usize, name: &'b [u8]) -> Result<(), Refusal>
    requires { Sane e }
    ensures { code result ≡ remove_code e told b.now name.now }
{
    dir_sf::check(e, b, told)?;
    check_removal(e, dir_sf::used(e, b, told), name)
}

// Takes the entry of a name out.
fn take_out<'a, 'b>(e: Edition, b: &'a mut [u8], told: usize, name: &'b [u8])
    requires { Sane e × (remove_code e told b.old name.now ≡ 0) }
    ensures { b.new ≡ with_entries e b.old (removed e name.now (entries e (used e b.old))) }
{
    let n = dir_sf::fork_long(e, &b[..]);
    let mut t = [0u8; 2048];
    let size = shrink(e, &mut t, dir_sf::used(e, &b[..], told), name);
    write_back(e, b, &t[..], n, size);
}

fn remove_from<'a, 'b>(
    e: Edition,
    b: &'a mut [u8],
    told: usize,
    name: &'b [u8],
) -> Result<(), Refusal>
    requires { Sane e }
    ensures { (code result ≡ remove_code e told b.old name.now)
        × (b.new ≡ remove_bytes e told b.old name.now) }
{
    check_remove(e, &b[..], told, name)?;
    take_out(e, b, told, name);
    Ok(())
}

// Removes the entry of a name.
pub fn remove<'a, 'b>(b: &'a mut [u8], told: usize, name: &'b [u8]) -> Result<(), Refusal>
    ensures { (code result ≡ remove_code v4 told b.old name.now)
        × (b.new ≡ remove_bytes v4 told b.old name.now) }
{
    remove_from(V4::edition(), b, told, name)
}

// ---- insert

// The least tag after all the entries.
fn end_of(entries: Entries) -> usize
    ensures { (result
        ≡ end_tag entries.entry.edition entries.entry.edition.first (bare (left entries.entry)))
        × (result ≤ 65815) }
{
    let e = entries.edition;
    let mut low = e.first;
    for x in entries {
        low = x.tag + edition::entry_size(e, x.name.len());
    }
    low
}

// The start of the lowest gap in the tags that holds `long`, if there is one.
fn gap_of(entries: Entries, long: usize) -> Option<usize>
    requires { long < 280 }
    ensures { result
        ≡ gap_tag entries.entry.edition long entries.entry.edition.first (bare (left entries.entry)) }
{
    let e = entries.edition;
    let mut low = e.first;
    for x in entries {
        if low + long <= x.tag {
            return Some(low);
        }
        low = x.tag + edition::entry_size(e, x.name.len());
    }
    None
}

// Where an entry stands: how many are before it, and where it starts.
#[derive(Clone, Copy)]
struct Spot {
    index: usize,
    at: usize,
}

// Where an entry with a tag goes: how many are before it, and where the next one starts.
fn rank_of(e: Edition, u: &[u8], at: usize, k: usize, wides: usize, tag: usize) -> Spot
    requires { Sane e × (at ≤ length u.now) × (enough e (width_of wides) u.now k at ≡ true) }
    ensures { (result.index ≡ rank tag (entries_in e (width_of wides) u.now k at))
        × (result.at ≡ start (size_at e (width_of wides) u.now) result.index at) }
{
    let mut p = at;
    let w = dir_sf::rest(e, wides);
    for i in 0..k {
        let n = dir_sf::namelen(e, u, p, wides);
        if tag < be::be16(u, p + 1) {
            return Spot { index: i, at: p };
        }
        p = p + 3 + n + w;
    }
    Spot { index: k, at: p }
}

// The tag of a new entry with a name of n bytes, if one is free.
fn tag_of(e: Edition, u: &[u8], n: usize, told: usize) -> Option<usize>
    requires { Sane e × Readable e u.now × (n < 256) }
    ensures { result ≡ tag_for e told n (entries e u.now) }
{
    let k = be::be8(u, 0);
    let entries = Entries::of(e, u);
    let long = edition::entry_size(e, n);
    let end = end_of(entries);
    if end + long + 8 * (k + 1 + 2) + 8 <= told {
        return Some(end);
    }
    if end + 8 * (k + 1 + 2) + 8 <= told {
        return gap_of(entries, long);
    }
    None
}

// Where an entry with a tag goes among those in u.
fn spot_of(e: Edition, u: &[u8], tag: usize) -> Spot
    requires { Sane e × Readable e u.now }
    ensures { (result.index ≡ rank tag (entries e u.now)) × (result.at ≡ place_of e result.index u.now) }
{
    let k = be::be8(u, 0);
    let wides = be::be8(u, 1);
    rank_of(e, u, 2 + dir_sf::width(wides), k, wides, tag)
}

// Lays out the directory in u with a new entry before the one at `at`, which has `index` before it. Gives its size.
fn lay_with<'a, 'b, 'c>(
    e: Edition,
    t: &'a mut [u8],
    u: &'b [u8],
    index: usize,
    at: usize,
    after: usize,
    name: &'c [u8],
    tag: usize,
    to: Target,
) -> usize
    requires { Sane e × Readable e u.now × (index ≤ count_of u.now) × (at ≡ place_of e index u.now)
        × (count_of u.now < 255) × (after < 256) × (length name.now < 256)
        × (length (laid e (count_of u.now + 1) after (parent u.now)
        (with_nth index (entry tag name.now to) (entries e u.now))) ≤ length t.old) }
    ensures { (t.new ≡ put t.old 0 (laid e (count_of u.now + 1) after (parent u.now)
        (with_nth index (entry tag name.now to) (entries e u.now))))
        × (result ≡ length (laid e (count_of u.now + 1) after (parent u.now)
        (with_nth index (entry tag name.now to) (entries e u.now)))) }
{
    let m = lay_first(e, t, u, index, be::be8(u, 0) + 1, after);
    let q = put_entry(e, t, m, name, tag, to, after);
    copy_others(e, t, q, u, at, index, after)
}

// The size with a new entry in: where the first wide number comes, each number grows by 4 bytes, the parent's too.
fn grown<'a, 'b>(e: Edition, u: &'a [u8], name: &'b [u8], tag: usize, to: Target) -> usize
    requires { Sane e × Readable e u.now × (length u.now ≤ 1948) × (length name.now < 256)
        × (length (lay e (parent u.now) (entries e u.now)) ≡ length u.now) }
    ensures { result ≡ length (lay e (parent u.now) (placed (entry tag name.now to) (entries e u.now))) }
{
    let wides = be::be8(u, 1);
    let after = wides + dir_sf::one_if_wide(to.inode);
    let plain = u.len() + 3 + name.len() + dir_sf::rest(e, after);
    if wides != 0 {
        return plain;
    }
    if after == 0 {
        return plain;
    }
    plain + 4 * (be::be8(u, 0) + 1)
}

// What refuses an insert, in a directory that passes the tests.
fn check_insertion<'a, 'b>(
    e: Edition,
    u: &'a [u8],
    told: usize,
    fork: usize,
    name: &'b [u8],
    to: Target,
) -> Result<(), Refusal>
    requires { Sane e × Readable e u.now × (length u.now ≤ 1948) × (length (lay e (parent u.now) (entries e u.now)) ≡ length u.now) }
    ensures { code result ≡ insert_request e told fork name.now to (parent u.now) (entries e u.now) }
{
    if !name::legal(e, name) {
        return Err(Refusal::Asked);
    }
    if !dir::target_legal(e, to) {
        return Err(Refusal::Asked);
    }
    if name::fixed(name) {
        return Err(Refusal::Fixed);
    }
    if dir_sf::seek_name(e, u, name).is_some() {
        return Err(Refusal::Exists);
    }
    let Some(tag) = tag_of(e, u, name.len(), told) else {
        return Err(Refusal::NoRoom);
    };
    if fork < grown(e, u, name, tag, dir::kept(e, to)) {
        return Err(Refusal::NoRoom);
    }
    Ok(())
}

// What refuses an insert.
fn check_insert<'a, 'b>(
    e: Edition,
    b: &'a [u8],
    told: usize,
    name: &'b [u8],
    to: Target,
) -> Result<(), Refusal>
    requires { Sane e }
    ensures { code result ≡ insert_code e told b.now name.now to }
{
    dir_sf::check(e, b, told)?;
    let fork = dir_sf::fork_long(e, b);
    check_insertion(e, dir_sf::used(e, b, told), told, fork, name, to)
}

// Lays out the directory in u with a new entry, for which there is a tag. Gives its size.
fn grow<'a, 'b, 'c>(
    e: Edition,
    t: &'a mut [u8],
    u: &'b [u8],
    told: usize,
    name: &'c [u8],
    to: Target,
) -> usize
    requires { Sane e × Readable e u.now × (length name.now < 256) × (count_of u.now < 254)
        × (is_free (tag_for e told (length name.now) (entries e u.now)) ≡ true)
        × (length (lay e (parent u.now) (inserted e told name.now to (entries e u.now))) ≤ length t.old) }
    ensures { (t.new
        ≡ put t.old 0 (lay e (parent u.now) (inserted e told name.now to (entries e u.now))))
        × (result ≡ length (lay e (parent u.now) (inserted e told name.now to (entries e u.now)))) }
{
    let tag = tag_of(e, u, name.len(), told).unwrap();
    let s = spot_of(e, u, tag);
    let after = be::be8(u, 1) + dir_sf::one_if_wide(to.inode);
    lay_with(e, t, u, s.index, s.at, after, name, tag, dir::kept(e, to))
}

// Puts a new entry in.
fn put_in<'a, 'b>(e: Edition, b: &'a mut [u8], told: usize, name: &'b [u8], to: Target)
    requires { Sane e × (insert_code e told b.old name.now to ≡ 0) }
    ensures { b.new
        ≡ with_entries e b.old (inserted e told name.now to (entries e (used e b.old))) }
{
    let n = dir_sf::fork_long(e, &b[..]);
    let mut t = [0u8; 2048];
    let size = grow(e, &mut t, dir_sf::used(e, &b[..], told), told, name, to);
    write_back(e, b, &t[..], n, size);
}

fn insert_into<'a, 'b>(
    e: Edition,
    b: &'a mut [u8],
    told: usize,
    name: &'b [u8],
    to: Target,
) -> Result<(), Refusal>
    requires { Sane e }
    ensures { (code result ≡ insert_code e told b.old name.now to)
        × (b.new ≡ insert_bytes e told b.old name.now to) }
{
    check_insert(e, &b[..], told, name, to)?;
    put_in(e, b, told, name, to);
    Ok(())
}

// Inserts an entry.
pub fn insert<'a, 'b>(
    b: &'a mut [u8],
    told: usize,
    name: &'b [u8],
    number: u64,
) -> Result<(), Refusal>
    ensures { (code result ≡ insert_code v4 told b.old name.now (target number 0))
        × (b.new ≡ insert_bytes v4 told b.old name.now (target number 0)) }
{
    let to = Target {
        inode: number,
        kind: 0,
    };
    insert_into(V4::edition(), b, told, name, to)
}
