// Insert and removal in a block directory.
#![tactic(auto)]

ghost use Rattle.std.specs.Prelude.{◌≡◌, true, false, ◌+◌, ◌-◌, ◌*◌, ◌/◌, ◌%◌, ◌≤◌, ◌<◌, ◌++◌, length, replicate};
ghost use Rattle.refusal.specs.Refusal.{code};
ghost use Rattle.be.specs.Lists.{without_first, keep};
ghost use Rattle.be.specs.Bytes.{byte, bytes, to_be, put, written};
ghost use Rattle.edition.specs.Edition.{v4, entry_size, Sane};
ghost use Rattle.name.specs.Name.{hash_of, legal_name, fixed_name};
ghost use Rattle.dir.specs.Target.{target, legal_in};
ghost use Rattle.dir_block_rules.specs.Record.{entry_bytes, gap_writes, gaps, size};
ghost use Rattle.dir_block_rules.specs.Block.{records, data_end, count_of, stale_of, slots, slot, is_stale, is_live};
ghost use Rattle.dir_block_rules.specs.Verdict.{own_of};
ghost use Rattle.dir_block_rules.specs.Lookup.{sought};
ghost use Rattle.dir_block_rules.specs.Room.{has_room, room_of, other_gaps};
ghost use Rattle.dir_block_rules.specs.Change.{longest, gap_start_before, gap_end_after, changed, remove_writes, remove_code, remove_bytes, index_writes, insert_slot, entry_writes, insert_code, insert_bytes};
ghost use Rattle.dir_block_laws.specs.Tiled.{Ready, Tiled};
ghost use Rattle.dir_block_laws.specs.SlotIndex.{Spot};
ghost use Rattle.dir_block_laws.specs.Pass.{EntryAt, Inside, Scanned, Surveyed};
ghost use Rattle.dir_block_scan.specs.Table.{table, first};
ghost use Rattle.dir_block_edit.specs.Chosen.{chosen};
ghost use Rattle.dir_block_edit.specs.Refusal.{asked_of};

use dir::Target;
use dir_block_scan::{Gap, Scan};
use edition::{Edition, V4};
use refusal::Refusal;

// A gap of n bytes at o; nothing if n is 0.
fn put_gap(b: &mut [u8], o: usize, n: usize)
    requires { (2 ≤ o) × (o + n + 4 ≤ length b.old) }
    ensures { b.new ≡ written b.old (gap_writes o n) }
{
    if n == 0 {
        return;
    }
    be::put16(b, o, 65535);
    be::put16(b, o + 2, n);
    be::put16(b, o + n - 2, o);
}

// Where the gap starts that ends at the entry's offset o; o if there is none.
fn joined_start(e: Edition, b: &[u8], o: usize) -> usize
    requires sane { Sane e × Tiled e b.now }
    requires entry_at { EntryAt e b.now o }
    ensures { (result ≡ gap_start_before o (gaps (records e b.now))) × ((result ≤ o) × (e.header ≤ result)) }
{
    if o == e.header {
        return o;
    }
    let p = be::be16(b, o - 2);
    if be::be16(b, p) == 65535 {
        return p;
    }
    o
}

// Where the gap ends that starts at u, where the entry at o ends; u if there is none.
fn joined_end(e: Edition, b: &[u8], end: usize, o: usize, u: usize) -> usize
    requires sane { Sane e × Tiled e b.now }
    requires entry_at { EntryAt e b.now o }
    requires end_value { (end ≡ data_end b.now) × (u ≡ o + entry_size e (byte (o + 8) b.now)) }
    ensures { (result ≡ gap_end_after u (gaps (records e b.now))) × ((u ≤ result) × (result ≤ end)) }
{
    if end <= u {
        return u;
    }
    if be::be16(b, u) != 65535 {
        return u;
    }
    let n = be::be16(b, u + 2);
    u + n
}

// Bytes of the data: where they start, and where they end.
#[derive(Clone, Copy)]
struct Span {
    start: usize,
    end: usize,
}

// The entry at `at`, whose slot has the index given, and the gaps beside it become one gap; the slot goes stale. Where that gap lies.
fn free_entry(e: Edition, b: &mut [u8], end: usize, slot: usize, at: usize, name: &[u8]) -> Span
    requires sane { Sane e × Ready e b.old }
    requires end_value { end ≡ data_end b.old }
    requires name_value { ((sought e b.old name.now).hit ≡ true)
        × (((sought e b.old name.now).index ≡ slot) × ((sought e b.old name.now).at ≡ at)) }
    ensures b_after { b.new ≡ written b.old (remove_writes e b.old name.now) }
    ensures start_le_end { (result.start ≤ result.end)
        × ((result.start ≡ gap_start_before at (gaps (records e b.old)))
        × (result.end ≡ gap_end_after (at + entry_size e (length name.now)) (gaps (records e b.old)))) }
{
    let n = b.len();
    let k = be::be8(&b[..], at + 8);
    let m = at + edition::entry_size(e, k);
    let o = joined_start(e, &b[..], at);
    let u = joined_end(e, &b[..], end, at, m);
    let s = be::be32(&b[..], n - 4);
    put_gap(b, o, u - o);
    be::put32(b, end + 8 * slot + 4, 0);
    be::put32(b, n - 4, s + 1);
    Span { start: o, end: u }
}

// The removal of a name that was found.
fn remove_found(e: Edition, b: &mut [u8], end: usize, slot: usize, at: usize, name: &[u8])
    requires sane { Sane e × Ready e b.old }
    requires end_value { end ≡ data_end b.old }
    requires name_value { ((sought e b.old name.now).hit ≡ true)
        × (((sought e b.old name.now).index ≡ slot) × ((sought e b.old name.now).at ≡ at)) }
    requires name_value_2 { fixed_name name.now ≡ false }
    ensures { b.new ≡ changed e b.old (remove_writes e b.old name.now) }
{
    let s = dir_block_scan::stored(e, &b[..]);
    let g = free_entry(e, b, end, slot, at, name);
    dir_block_scan::joined_table(e, b, s, g.start, g.end);
}

// The removal of a name other than "." and "..", whose hash is h. A name that is found is legal.
fn remove_ready(e: Edition, b: &mut [u8], name: &[u8], h: usize) -> Result<(), Refusal>
    requires sane { Sane e × Ready e b.old }
    requires name_value { (fixed_name name.now ≡ false) × (h ≡ hash_of e name.now) }
    ensures { (code result ≡ remove_code e b.old name.now)
        × (b.new ≡ remove_bytes e b.old name.now) }
{
    let n = b.len();
    let c = be::be32(&b[..], n - 8);
    let end = n - 8 - 8 * c;
    let f = dir_block_lookup::seek(e, &b[..], end, c, name, h);
    if let Some(hit) = f.found {
        remove_found(e, b, end, hit.index, hit.at, name);
        return Ok(());
    }
    if !name::legal(e, name) {
        return Err(Refusal::Asked);
    }
    Err(Refusal::Absent)
}

// What stands between an entry's name and its tag: the file type, and k zeros.
fn put_pad(e: Edition, b: &mut [u8], o: usize, kind: usize, k: usize)
    requires { Sane e × (o + e.ftype + k ≤ length b.old) }
    ensures { b.new ≡ put b.old o (to_be e.ftype kind ++ replicate k 0) }
{
    dir::put_kind(e, b, o, kind);
    be::zero(b, o + e.ftype, k);
}

// The bytes of an entry at offset o.
fn put_entry(e: Edition, b: &mut [u8], o: usize, to: Target, name: &[u8])
    requires sane { Sane e }
    requires name_len_bound { (length name.now < 256) × (o + entry_size e (length name.now) ≤ length b.old) }
    ensures { b.new ≡ put b.old o (entry_bytes e o to name.now) }
{
    let n = name.len();
    let long = edition::entry_size(e, n);
    be::put64(b, o, to.inode);
    be::put8(b, o + 8, n);
    be::copy_into(b, o + 9, name);
    put_pad(e, b, o + 9 + n, to.kind, long - (11 + e.ftype + n));
    be::put16(b, o + long - 2, o);
}

// The entry at the start of the free bytes from o up to u, and a gap of what is left of them.
fn put_first(e: Edition, b: &mut [u8], o: usize, u: usize, to: Target, name: &[u8])
    requires sane { Sane e }
    requires name_len_bound { (length name.now < 256) × ((o + entry_size e (length name.now) ≤ u) × (u + 4 ≤ length b.old)) }
    ensures { b.new ≡ written b.old (entry_writes e to name.now o u) }
{
    let end = o + edition::entry_size(e, name.len());
    put_entry(e, b, o, to, name);
    put_gap(b, end, u - end);
}

// What an insert adds: a name and its hash, and what it stands for.
#[derive(Clone, Copy)]
struct New<'a> {
    to: Target,
    name: &'a [u8],
    hash: usize,
}

// (a): the longest gap; the first stale slot is taken.
fn insert_a(
    e: Edition,
    b: &mut [u8],
    end: usize,
    count: usize,
    stale: usize,
    p: usize,
    gap: Gap,
    new: New,
)
    requires sane { Sane e × Ready e b.old }
    requires end_value { (end ≡ data_end b.old) × ((count ≡ count_of b.old) × ((stale ≡ stale_of b.old) × (0 < stale))) }
    requires spot { Spot b.old new.hash p }
    requires inside { Inside e b.old gap.at gap.len × ((length new.name.now < 256) × (entry_size e (length new.name.now) ≤ gap.len)) }
    ensures { b.new ≡ written b.old (entry_writes e new.entry.to new.entry.name.now gap.at (gap.at + gap.len)
        ++ index_writes (length b.old) (insert_slot (slot new.entry.hash (gap.at / 8)) (without_first is_stale (slots b.old))) (stale - 1)) }
{
    dir_block_index::reuse(e, b, end, count, stale, p, new.hash, gap.at / 8);
    put_first(e, b, gap.at, gap.at + gap.len, new.to, new.name);
}

// (c): the longest gap other than T; T, the last gap, gives 8 bytes off its end to the index.
fn insert_c(
    e: Edition,
    b: &mut [u8],
    end: usize,
    count: usize,
    p: usize,
    gap: Gap,
    last: Gap,
    new: New,
)
    requires sane { Sane e × Ready e b.old }
    requires end_value { (end ≡ data_end b.old) × (count ≡ count_of b.old) }
    requires spot { Spot b.old new.hash p }
    requires inside { Inside e b.old gap.at gap.len × ((length new.name.now < 256) × (entry_size e (length new.name.now) ≤ gap.len)) }
    requires l_bound { (gap.at + gap.len ≤ last.at) × ((last.at + last.len ≡ end) × ((8 ≤ last.len) × (last.len % 8 ≡ 0))) }
    ensures { b.new ≡ written b.old (entry_writes e new.entry.to new.entry.name.now gap.at (gap.at + gap.len)
        ++ (gap_writes last.at (last.len - 8) ++ index_writes (length b.old) (insert_slot (slot new.entry.hash (gap.at / 8)) (slots b.old)) 0)) }
{
    dir_block_index::grow(e, b, end, count, p, new.hash, gap.at / 8);
    put_first(e, b, gap.at, gap.at + gap.len, new.to, new.name);
    put_gap(b, last.at, last.len - 8);
}

// (d): T, the last gap, with 8 bytes off its end.
fn insert_d(e: Edition, b: &mut [u8], end: usize, count: usize, p: usize, last: Gap, new: New)
    requires sane { Sane e × Ready e b.old }
    requires end_value { (end ≡ data_end b.old) × (count ≡ count_of b.old) }
    requires spot { Spot b.old new.hash p }
    requires name_len_bound { (length new.name.now < 256) × (entry_size e (length new.name.now) + 8 ≤ last.len) }
    requires header_le_u { (e.header ≤ last.at) × ((last.at + last.len ≡ end) × (last.len % 8 ≡ 0)) }
    ensures { b.new ≡ written b.old (entry_writes e new.entry.to new.entry.name.now last.at (last.at + last.len - 8)
        ++ index_writes (length b.old) (insert_slot (slot new.entry.hash (last.at / 8)) (slots b.old)) 0) }
{
    dir_block_index::grow(e, b, end, count, p, new.hash, last.at / 8);
    put_first(e, b, last.at, last.at + last.len - 8, new.to, new.name);
}

// (b): T, the last gap, grown over the stale slots that are not needed; all stale slots are dropped.
fn insert_b(
    e: Edition,
    b: &mut [u8],
    end: usize,
    count: usize,
    stale: usize,
    p: usize,
    last: Gap,
    new: New,
)
    requires sane { Sane e × Ready e b.old }
    requires end_value { (end ≡ data_end b.old) × ((count ≡ count_of b.old) × ((stale ≡ stale_of b.old) × (0 < stale))) }
    requires spot { Spot b.old new.hash p }
    requires name_len_bound { (length new.name.now < 256) × (entry_size e (length new.name.now) ≤ last.len + 8 * (stale - 1)) }
    requires header_le_u { (e.header ≤ last.at) × ((last.at + last.len ≡ end) × (last.len % 8 ≡ 0)) }
    ensures { b.new ≡ written b.old (entry_writes e new.entry.to new.entry.name.now last.at (last.at + last.len + 8 * (stale - 1))
        ++ index_writes (length b.old) (insert_slot (slot new.entry.hash (last.at / 8)) (keep is_live (slots b.old))) 0) }
{
    dir_block_index::squeeze(e, b, end, count, stale, p, new.hash, last.at / 8);
    put_first(
        e,
        b,
        last.at,
        last.at + last.len + 8 * (stale - 1),
        new.to,
        new.name,
    );
}

// (c) or (d), without stale slots: `other` is the longest gap other than T.
fn choose_cd(
    e: Edition,
    b: &mut [u8],
    end: usize,
    count: usize,
    p: usize,
    g: Scan,
    other: Gap,
    need: usize,
    new: New,
) -> bool
    requires sane { Sane e × Ready e b.old }
    requires end_value { (end ≡ data_end b.old) × ((count ≡ count_of b.old) × (0 ≡ stale_of b.old)) }
    requires spot { Spot b.old new.hash p }
    requires scanned { Scanned e b.old (first g) g.last.at g.last.len }
    requires name_value { ((longest (other_gaps (room_of e b.old new.name.now))).off ≡ other.at)
        × (size (longest (other_gaps (room_of e b.old new.name.now))) ≡ other.len) }
    requires h_value { (new.hash ≡ hash_of e new.name.now) × ((need ≡ entry_size e (length new.name.now)) × (length new.name.now < 256)) }
    ensures { (result ≡ has_room e b.old new.entry.name.now) × (b.new ≡ chosen e result b.old new.entry.name.now new.entry.to) }
{
    if g.last.len < 8 {
        return false;
    }
    if need <= other.len {
        insert_c(e, b, end, count, p, other, g.last, new);
        return true;
    }
    if need + 8 <= g.last.len {
        insert_d(e, b, end, count, p, g.last, new);
        return true;
    }
    false
}

// (a) or (b), with stale slots.
fn choose_ab(
    e: Edition,
    b: &mut [u8],
    end: usize,
    count: usize,
    stale: usize,
    p: usize,
    g: Scan,
    need: usize,
    new: New,
) -> bool
    requires sane { Sane e × Ready e b.old }
    requires end_value { (end ≡ data_end b.old) × ((count ≡ count_of b.old) × ((stale ≡ stale_of b.old) × (0 < stale))) }
    requires spot { Spot b.old new.hash p }
    requires scanned { Scanned e b.old (first g) g.last.at g.last.len }
    requires h_value { (new.hash ≡ hash_of e new.name.now) × ((need ≡ entry_size e (length new.name.now)) × (length new.name.now < 256)) }
    ensures { (result ≡ has_room e b.old new.entry.name.now) × (b.new ≡ chosen e result b.old new.entry.name.now new.entry.to) }
{
    if need <= g.first.len {
        insert_a(e, b, end, count, stale, p, g.first, new);
        return true;
    }
    if need <= g.last.len + 8 * (stale - 1) {
        insert_b(e, b, end, count, stale, p, g.last, new);
        return true;
    }
    false
}

// The room rule: an entry and its slot, with the hash h, are put in, if there is room. g is the survey of the gaps.
fn choose(
    e: Edition,
    b: &mut [u8],
    end: usize,
    count: usize,
    stale: usize,
    g: Scan,
    to: Target,
    name: &[u8],
    h: usize,
) -> bool
    requires sane { Sane e × Ready e b.old }
    requires end_value { (end ≡ data_end b.old) × ((count ≡ count_of b.old) × (stale ≡ stale_of b.old)) }
    requires surveyed { Surveyed e b.old (table g) g.last.at g.last.len }
    requires h_value { (h ≡ hash_of e name.now) × (length name.now < 256) }
    ensures { (result ≡ has_room e b.old name.now) × (b.new ≡ chosen e result b.old name.now to) }
{
    let need = edition::entry_size(e, name.len());
    let new = New { to, name, hash: h };
    let p = dir_block_index::spot(e, &b[..], end, count, h);
    let m = dir_block_scan::longest(e, &b[..], g);
    if 0 < stale {
        return choose_ab(e, b, end, count, stale, p, m, need, new);
    }
    choose_cd(e, b, end, count, p, m, g.first, need, new)
}

// The insert of a legal name other than "." and "..", whose hash is h, with what may be asked for.
fn insert_ready(e: Edition, b: &mut [u8], to: Target, name: &[u8], h: usize) -> Result<(), Refusal>
    requires sane { Sane e × Ready e b.old }
    requires name_value { (legal_name e name.now ≡ true) × ((legal_in e (own_of e b.old) to ≡ true) × ((fixed_name name.now ≡ false) × (bytes name.now ≡ true))) }
    requires h_value { h ≡ hash_of e name.now }
    ensures { (code result ≡ insert_code e b.old name.now to)
        × (b.new ≡ insert_bytes e b.old name.now to) }
{
    let n = b.len();
    let c = be::be32(&b[..], n - 8);
    let s = be::be32(&b[..], n - 4);
    let end = n - 8 - 8 * c;
    let f = dir_block_lookup::seek(e, &b[..], end, c, name, h);
    if f.found.is_some() {
        return Err(Refusal::Exists);
    }
    let g = dir_block_scan::survey(e, &b[..], end);
    let done = choose(e, b, end, c, s, g, to, name, h);
    if done {
        dir_block_scan::used_table(e, b, g, s, name.len());
        return Ok(());
    }
    Err(Refusal::NoRoom)
}

// The refusals of an insert's request that need no search.
fn request(name: &[u8], legal: bool) -> Result<(), Refusal>
    ensures { code result ≡ asked_of legal (fixed_name name.now) 0 }
{
    if !legal {
        return Err(Refusal::Asked);
    }
    if name::fixed(name) {
        return Err(Refusal::Fixed);
    }
    Ok(())
}

// The directory's own number: that of ".", which stands at the header's end.
fn own_number(e: Edition, b: &[u8]) -> u64
    requires { Sane e × Ready e b.now }
    ensures { result ≡ own_of e b.now }
{
    be::be64(b, e.header)
}

// Insert in a block of an edition. The block is tested first, then the request is judged.
fn insert_in(e: Edition, b: &mut [u8], name: &[u8], to: Target) -> Result<(), Refusal>
    requires { Sane e }
    ensures { (code result ≡ insert_code e b.old name.now to)
        × (b.new ≡ insert_bytes e b.old name.now to) }
{
    dir_block_test::check(e, &b[..])?;
    let asked = name::legal(e, name);
    let legal = dir::legal_in(e, own_number(e, &b[..]), to);
    request(name, asked & legal)?;
    insert_ready(e, b, to, name, name_words::hash(e, name))
}

// Removal in a block of an edition.
fn remove_in(e: Edition, b: &mut [u8], name: &[u8]) -> Result<(), Refusal>
    requires { Sane e }
    ensures { (code result ≡ remove_code e b.old name.now)
        × (b.new ≡ remove_bytes e b.old name.now) }
{
    dir_block_test::check(e, &b[..])?;
    // Too long to be a name, and not hashed.
    if 255 < name.len() {
        return Err(Refusal::Asked);
    }
    if name::fixed(name) {
        return Err(Refusal::Fixed);
    }
    remove_ready(e, b, name, name_words::hash(e, name))
}

// Insert in a block of the V4 edition.
pub fn insert(b: &mut [u8], name: &[u8], number: u64) -> Result<(), Refusal>
    ensures { (code result ≡ insert_code v4 b.old name.now (target number 0))
        × (b.new ≡ insert_bytes v4 b.old name.now (target number 0)) }
{
    insert_in(
        V4::edition(),
        b,
        name,
        Target {
            inode: number,
            kind: 0,
        },
    )
}

// Removal in a block of the V4 edition.
pub fn remove(b: &mut [u8], name: &[u8]) -> Result<(), Refusal>
    ensures { (code result ≡ remove_code v4 b.old name.now)
        × (b.new ≡ remove_bytes v4 b.old name.now) }
{
    remove_in(V4::edition(), b, name)
}
