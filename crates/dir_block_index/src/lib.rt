// The index of an accepted block with a slot more: by each case of the room rule.
#![tactic(auto)]

ghost use Rattle.std.specs.Prelude.{◌≡◌, ◌+◌, ◌-◌, ◌*◌, ◌≤◌, ◌<◌, ◌++◌, [], ◌∷◌, length, drop};
ghost use Rattle.be.specs.Lists.{without_first, keep};
ghost use Rattle.be.specs.Bytes.{written, put, to_be, field};
ghost use Rattle.edition.specs.Edition.{Sane};
ghost use Rattle.dir_block_rules.specs.Block.{data_end, count_of, stale_of, slots, slot, is_stale, is_live, slot_bytes, slots_in};
ghost use Rattle.dir_block_rules.specs.Change.{index_writes, insert_slot};
ghost use Rattle.dir_block_laws.specs.Tiled.{Ready};
ghost use Rattle.dir_block_laws.specs.SlotIndex.{Spot, FirstStale};

use edition::Edition;

// Two numbers of 4 bytes: a slot, or the tail.
fn put_slot(b: &mut [u8], o: usize, h: usize, a: usize)
    requires { o + 8 ≤ length b.old }
    ensures { b.new ≡ put b.old o (to_be 4 h ++ to_be 4 a) }
{
    be::put32(b, o, h);
    be::put32(b, o + 4, a);
}

// Where a slot of hash h goes in.
pub fn spot(e: Edition, b: &[u8], end: usize, count: usize, h: usize) -> usize
    requires sane { Sane e × Ready e b.now }
    requires end_value { (end ≡ data_end b.now) × (count ≡ count_of b.now) }
    requires h_bound { h < 4294967296 }
    ensures { Spot b.now h result }
{
    dir_block_lookup::first_slot(e, b, end, count, h + 1)
}

// The first stale slot.
fn first_stale(e: Edition, b: &[u8], end: usize, count: usize) -> usize
    requires sane { Sane e × Ready e b.now }
    requires end_value { (end ≡ data_end b.now) × (count ≡ count_of b.now) }
    requires b_nonzero { 0 < stale_of b.now }
    ensures { FirstStale b.now result }
{
    for j in 0..count {
        let a = be::be32(b, end + 8 * j + 4);
        if a == 0 {
            return j;
        }
    }
    count
}

// One slot more at index i: those before it move down by 8. Room rule (c), (d).
pub fn grow(e: Edition, b: &mut [u8], end: usize, count: usize, i: usize, h: usize, a: usize)
    requires sane { Sane e × Ready e b.old }
    requires end_value { (end ≡ data_end b.old) × ((count ≡ count_of b.old) × (8 ≤ end)) }
    requires spot { Spot b.old h i }
    ensures { b.new ≡ written b.old
        (index_writes (length b.old) (insert_slot (slot h a) (slots b.old)) 0) }
{
    let n = b.len();
    be::move_bytes(b, end, end - 8, 8 * i);
    put_slot(b, end - 8 + 8 * i, h, a);
    put_slot(b, n - 8, count + 1, 0);
}

// The slot at index p, and the stale slot at index j gone: those between the two move by 8, in one move.
fn move_one(e: Edition, b: &mut [u8], end: usize, p: usize, j: usize, h: usize, a: usize)
    requires sane { Sane e × Ready e b.old }
    requires end_value { end ≡ data_end b.old }
    requires spot { Spot b.old h p }
    requires first_stale { FirstStale b.old j }
    ensures { b.new ≡ put b.old (data_end b.old)
        (slot_bytes (insert_slot (slot h a) (without_first is_stale (slots b.old)))) }
{
    if j < p {
        be::move_bytes(b, end + 8 * (j + 1), end + 8 * j, 8 * (p - (j + 1)));
        put_slot(b, end + 8 * (p - 1), h, a);
        return;
    }
    be::move_bytes(b, end + 8 * p, end + 8 * p + 8, 8 * (j - p));
    put_slot(b, end + 8 * p, h, a);
}

// The index with the first stale slot taken. Room rule (a).
pub fn reuse(
    e: Edition,
    b: &mut [u8],
    end: usize,
    count: usize,
    stale: usize,
    p: usize,
    h: usize,
    a: usize,
)
    requires sane { Sane e × Ready e b.old }
    requires end_value { (end ≡ data_end b.old) × ((count ≡ count_of b.old) × ((stale ≡ stale_of b.old) × (0 < stale))) }
    requires spot { Spot b.old h p }
    ensures { b.new ≡ written b.old
        (index_writes (length b.old) (insert_slot (slot h a) (without_first is_stale (slots b.old))) (stale - 1)) }
{
    let n = b.len();
    let j = first_stale(e, &b[..], end, count);
    move_one(e, b, end, p, j, h, a);
    put_slot(b, n - 8, count, stale - 1);
}

// The slot at o, written before w if it is live, as a word: where the packed slots start now. An address of 0 reads the same in either order
// of its bytes.
fn pack_one(b: &mut [u8], o: usize, w: usize) -> usize
    requires { (o + 8 ≤ w) × (w ≤ length b.old) }
    ensures { (b.new ≡ put b.old result
        (slot_bytes (keep is_live (slot (field o 4 b.old) (field (o + 4) 4 b.old) ∷ []))))
        × (result + 8 * length (keep is_live (slot (field o 4 b.old) (field (o + 4) 4 b.old) ∷ [])) ≡ w) }
{
    if be::le32(&b[..], o + 4) == 0 {
        return w;
    }
    let s = be::le64(&b[..], o);
    be::put_le64(b, w - 8, s);
    w - 8
}

// The live ones of the k slots at o, packed so that they end at dst: where they start.
fn pack(b: &mut [u8], o: usize, k: usize, dst: usize) -> usize
    requires { (o + 8 * k ≤ dst) × (dst ≤ length b.old) }
    ensures { (b.new ≡ put b.old result (slot_bytes (keep is_live (slots_in k (drop o b.old)))))
        × (result + 8 * length (keep is_live (slots_in k (drop o b.old))) ≡ dst) }
{
    let mut w = dst;
    for i in (0..k).rev() {
        w = pack_one(b, o + 8 * i, w);
    }
    w
}

// The index without its stale slots, and the new slot in its order. Room rule (b).
pub fn squeeze(
    e: Edition,
    b: &mut [u8],
    end: usize,
    count: usize,
    stale: usize,
    p: usize,
    h: usize,
    a: usize,
)
    requires sane { Sane e × Ready e b.old }
    requires end_value { (end ≡ data_end b.old) × ((count ≡ count_of b.old) × ((stale ≡ stale_of b.old) × (0 < stale))) }
    requires spot { Spot b.old h p }
    ensures { b.new ≡ written b.old
        (index_writes (length b.old) (insert_slot (slot h a) (keep is_live (slots b.old))) 0) }
{
    let n = b.len();
    let w1 = pack(b, end + 8 * p, count - p, n - 8);
    let w2 = pack(b, end, p, w1);
    be::move_bytes(b, w2, w2 - 8, w1 - w2);
    put_slot(b, w1 - 8, h, a);
    put_slot(b, n - 8, count - stale + 1, 0);
}
