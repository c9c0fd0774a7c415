// TWICE, test 10 of a block directory: no name is stored twice. Names are compared only within runs of one hash, and there only where the
// bits of a second hash are set already; where that still happens often, the names are sorted, and their order is tested.
#![tactic(auto)]

ghost use Rattle.std.specs.Prelude.{◌≡◌, true, false, ◌||◌, ◌+◌, ◌*◌, ◌≤◌, ◌<◌, eqb, length, get_or, set, IfSome, IsSome};
ghost use Rattle.std.specs.Int.Bits.{bit_and, bit_or};
ghost use Rattle.be.specs.Bytes.{byte};
ghost use Rattle.name.specs.Name.{same_name};
ghost use Rattle.name_words.specs.Words.{key_of};
ghost use Rattle.dir_block_rules.specs.Lookup.{name_at};
ghost use Rattle.dir_block_twice.specs.Twice.{slots_from, hash_at, addr_at, clash_from, runs_on, follows, key_bits, Marked, Noted, once_in, Reach, lex, Undecided, live_at, sorts_before, Ascends, Placed, Ranked, most_slots};

use edition::Edition;
use std::cmp::Ordering;

// The hash of slot i, of those at t.
pub fn slot_hash(b: &[u8], t: usize, i: usize) -> usize
    requires { t + 8 * i + 8 ≤ length b.now }
    ensures { (result ≡ hash_at b.now t i) × (result < 4294967296) }
{
    be::be32(b, t + 8 * i)
}

// Its address.
pub fn slot_addr(b: &[u8], t: usize, i: usize) -> usize
    requires { t + 8 * i + 8 ≤ length b.now }
    ensures { (result ≡ addr_at b.now t i) × (result < 4294967296) }
{
    be::be32(b, t + 8 * i + 4)
}

// Whether the entries at p and at q have the same name.
fn same_names(e: Edition, b: &[u8], p: usize, q: usize) -> bool
    requires { (p + 9 + byte (p + 8) b.now ≤ length b.now) × (q + 9 + byte (q + 8) b.now ≤ length b.now) }
    ensures { result ≡ same_name e (name_at b.now p) (name_at b.now q) }
{
    let i = p + 9;
    let j = q + 9;
    let k = i + be::be8(b, p + 8);
    let l = j + be::be8(b, q + 8);
    name::matches(e, &b[i..k], &b[j..l])
}

// Whether the slot after slot i has the same hash. Hashes are compared as words: equal bytes are an equal number either way.
fn runs_on(b: &[u8], t: usize, n: usize, i: usize) -> bool
    requires { (t + 8 * n ≤ length b.now) × (i < n) }
    ensures { result ≡ runs_on (hash_at b.now t i) (slots_from b.now t n (i + 1)) }
{
    let j = i + 1;
    if j < n {
        return be::le32(b, t + 8 * j) == be::le32(b, t + 8 * i);
    }
    false
}

// Whether slot i has the hash of the one before it.
fn follows(b: &[u8], t: usize, i: usize) -> bool
    requires { t + 8 * i + 8 ≤ length b.now }
    ensures { result ≡ follows b.now t i }
{
    if 0 < i {
        return be::le32(b, t + 8 * (i - 1)) == be::le32(b, t + 8 * i);
    }
    false
}

// A number for the name of the entry at p, the same for equal names.
fn name_key(b: &[u8], p: usize) -> usize
    requires { p + 9 + byte (p + 8) b.now + 8 ≤ length b.now }
    ensures { result ≡ key_of (name_at b.now p) }
{
    let i = p + 9;
    let end = i + be::be8(b, p + 8);
    name_words::key(b, i, end)
}

// The two bits of a key, in a word.
fn bits(k: usize) -> u64
    ensures { result ≡ key_bits k }
{
    (1u64 << (k % 64) as u32) | (1u64 << (k / 64 % 64) as u32)
}

// Sets the bits m of cell k; whether all of them were set.
fn note(seen: &mut [u64], k: usize, m: u64) -> bool
    requires { k < length seen.old }
    ensures { (result ≡ eqb (bit_and (get_or seen.old k 0) m) m)
        × (seen.new ≡ set seen.old k (bit_or (get_or seen.old k 0) m)) }
{
    let was = seen[k];
    seen[k] = was | m;
    was & m == m
}

// How many bytes at the start of both say nothing of their order, by eights: they are the same.
// Kept: the loop's place is the answer, also where it runs to the end.
fn same_start(x: &[u8], y: &[u8]) -> usize
    ensures { Undecided x.now y.now result }
{
    let n = x.len().min(y.len());
    let mut k = 0;
    while 8 <= n - k {
        if be::le64(x, k) != be::le64(y, k) {
            return k;
        }
        k += 8;
    }
    k
}

// The order of x and y: eight bytes a turn as long as they are the same, then byte by byte.
fn by_bytes(x: &[u8], y: &[u8]) -> Ordering {
    let k = same_start(x, y);
    x[k..].cmp(&y[k..])
}

// Whether x comes before y.
fn sooner(x: &[u8], y: &[u8]) -> bool
    ensures { result ≡ lex x.now y.now }
{
    let k = same_start(x, y);
    x[k..] < y[k..]
}

// Whether the name of the entry at p comes before that of the one at q.
fn sooner_at(b: &[u8], p: usize, q: usize) -> bool
    requires { (p + 9 + byte (p + 8) b.now ≤ length b.now) × (q + 9 + byte (q + 8) b.now ≤ length b.now) }
    ensures { result ≡ lex (name_at b.now p) (name_at b.now q) }
{
    let i = p + 9;
    let j = q + 9;
    let k = i + be::be8(b, p + 8);
    let l = j + be::be8(b, q + 8);
    sooner(&b[i..k], &b[j..l])
}

// The slot in cell k.
fn cell(s: &[u16], k: usize) -> usize
    requires { k < length s.now }
    ensures { (result ≡ get_or s.now k 0) × (result < 65536) }
{
    s[k] as usize
}

// Stores v in cell k, if there is one.
fn place(s: &mut [u16], k: usize, v: usize)
    requires { v < 65536 }
    ensures { length s.new ≡ length s.old }
{
    if k < s.len() {
        s[k] = v as u16;
    }
}

// Stores where each of the first m slots in order stands there.
fn rank_all<'a, 'b>(order: &'a [u16], m: usize, rank: &'b mut [u16])
    requires { (m ≤ length order.now) × (m ≤ most_slots) }
    ensures { length rank.new ≡ length rank.old }
{
    for k in 0..m {
        place(rank, cell(order, k), k);
    }
}

// Whether slot i's rank is where it stands among the first m in order.
fn placed(order: &[u16], rank: &[u16], m: usize, i: usize) -> bool
    requires { (m ≤ length order.now) × (i < length rank.now) }
    ensures { result ≡ true → Placed order.now rank.now m i }
{
    let k = cell(rank, i);
    if k < m {
        return cell(order, k) == i;
    }
    false
}

// The slots of a block, `count` of them at `at`: each that is not stale addresses an entry whose name lies in the block, with eight more bytes
// behind it.
#[derive(Clone, Copy)]
struct Slots<'a> {
    block: &'a [u8],
    at: usize,
    count: usize,
    ghost inside: { at + 8 * count ≤ length block.now },
    ghost reach: { Reach block.now at count },
    ghost few: { count ≤ most_slots },
}

impl<'a> Slots<'a> {
    // Whether a later slot of slot i's hash addresses an entry of the same name.
    fn clash(self, e: Edition, i: usize) -> bool
        requires { (i < self.count) × (addr_at self.block.now self.at i ≡ 0 → ⊥) }
        ensures { result ≡ clash_from e self.entry.block.now (hash_at self.entry.block.now self.entry.at i) (addr_at self.entry.block.now self.entry.at i)
            (slots_from self.entry.block.now self.entry.at self.entry.count (i + 1)) }
    {
        let h = slot_hash(self.block, self.at, i);
        let p = 8 * slot_addr(self.block, self.at, i);
        for j in i + 1..self.count {
            if slot_hash(self.block, self.at, j) != h {
                return false;
            }
            let a = slot_addr(self.block, self.at, j);
            if a != 0 {
                if same_names(e, self.block, p, 8 * a) {
                    return true;
                }
            }
        }
        false
    }

    // Whether slot i has the hash of the one before it or behind it.
    fn in_run(self, i: usize) -> bool
        requires { i < self.count }
        ensures { result ≡ (follows self.entry.block.now self.entry.at i || runs_on (hash_at self.entry.block.now self.entry.at i) (slots_from self.entry.block.now self.entry.at self.entry.count (i + 1))) }
    {
        if follows(self.block, self.at, i) {
            return true;
        }
        runs_on(self.block, self.at, self.count, i)
    }

    // Whether slot i has to be compared with later ones: it is live and in a run, and later names have set both of its name's bits. So many
    // names of one hash are seldom compared. The table is a Bloom filter in which a name has one word, by the key above the 12 bits of `bits`.
    fn suspect<'b>(self, i: usize, seen: &'b mut [u64]) -> bool
        requires { (i < self.count) × Marked self.block.now self.at self.count (i + 1) seen.old }
        ensures { Noted self.entry.block.now self.entry.at self.entry.count i seen.new result }
    {
        if !self.in_run(i) {
            return false;
        }
        let a = slot_addr(self.block, self.at, i);
        if a == 0 {
            return false;
        }
        let cells = seen.len();
        let k = name_key(self.block, 8 * a);
        note(seen, (k / 4096) & (cells - 1), bits(k))
    }

    // Whether no name is stored twice, from the last slot down; what the table holds at first doesn't matter. Names that have their bits in
    // common can be made on purpose: no more than `turns` slots are compared with later ones, and there is no answer where that is too few.
    fn once_with<'b>(self, e: Edition, seen: &'b mut [u64], turns: usize) -> Option<bool>
        requires { (0 < length seen.old) }
        ensures answer { IfSome result (λ once. once ≡ once_in e self.entry.block.now (slots_from self.entry.block.now self.entry.at self.entry.count 0)) }
        ensures enough { self.entry.count ≤ turns → IsSome result }
    {
        let mut left = turns;
        for i in (0..self.count).rev() {
            if self.suspect(i, seen) {
                if left == 0 {
                    return None;
                }
                left -= 1;
                if self.clash(e, i) {
                    return Some(false);
                }
            }
        }
        Some(true)
    }

    // Whether slot i is one of the n, and live.
    fn live(self, i: usize) -> bool
        ensures { result ≡ live_at self.entry.block.now self.entry.at self.entry.count i }
    {
        if i < self.count {
            return slot_addr(self.block, self.at, i) != 0;
        }
        false
    }

    // Whether slots i and j are live, and i's name comes before j's.
    fn sorts_before(self, i: usize, j: usize) -> bool
        ensures { result ≡ sorts_before self.entry.block.now self.entry.at self.entry.count i j }
    {
        if !self.live(i) {
            return false;
        }
        if !self.live(j) {
            return false;
        }
        sooner_at(
            self.block,
            8 * slot_addr(self.block, self.at, i),
            8 * slot_addr(self.block, self.at, j),
        )
    }

    // Whether the slots in cells p and q ascend.
    fn ascends(self, order: &[u16], p: usize, q: usize) -> bool
        requires { (p < length order.now) × (q < length order.now) }
        ensures { result ≡ sorts_before self.entry.block.now self.entry.at self.entry.count (get_or order.now p 0) (get_or order.now q 0) }
    {
        self.sorts_before(cell(order, p), cell(order, q))
    }

    // The name of slot i's entry; nothing where no live slot is there.
    fn name(self, i: usize) -> &'a [u8] {
        if !self.live(i) {
            return &[];
        }
        let p = 8 * slot_addr(self.block, self.at, i);
        let from = p + 9;
        let end = from + be::be8(self.block, p + 8);
        &self.block[from..end]
    }

    // Whether a merge takes left[p] before right[q]; a run that is used up has no cell left.
    fn takes_left(self, left: &[u16], right: &[u16], p: usize, q: usize) -> bool
        requires { (p ≤ length left.now) × (q ≤ length right.now) × (p + q < length left.now + length right.now) }
        ensures { (result ≡ true → p < length left.now) × (result ≡ false → q < length right.now) }
    {
        if left.len() <= p {
            return false;
        }
        if right.len() <= q {
            return true;
        }
        by_bytes(self.name(cell(left, p)), self.name(cell(right, q))) != Ordering::Greater
    }

    // Merges two runs of cells, in each of which the slots stand by their names, into as many cells.
    fn merge<'b, 'c>(self, left: &'b [u16], right: &'b [u16], to: &'c mut [u16])
        requires { length to.old ≡ length left.now + length right.now }
        ensures { length to.new ≡ length to.old }
    {
        let mut p = 0;
        let mut q = 0;
        for k in 0..to.len() {
            if self.takes_left(left, right, p, q) {
                place(to, k, cell(left, p));
                p += 1;
            } else {
                place(to, k, cell(right, q));
                q += 1;
            }
        }
    }

    // Merges the runs of so many cells two by two; what is left at the end is shorter.
    fn merge_runs<'b, 'c>(self, order: &'b [u16], to: &'c mut [u16], run: usize)
        requires { (length to.old ≡ length order.now) × (0 < run) × (run ≤ most_slots) }
        ensures { length to.new ≡ length to.old }
    {
        for low in (0..order.len()).step_by(2 * run) {
            let mid = order.len().min(low + run);
            let high = order.len().min(mid + run);
            self.merge(&order[low..mid], &order[mid..high], &mut to[low..high]);
        }
    }

    // Sorts the slots in the first m cells by their names, with as many spare cells. Runs are merged, and the slice's own method is not taken: an
    // order of names can be made against that, in which it compares nearly twice as often as a heap's sort. Of this and what else makes the order and the ranks it is
    // not proved that they come out right: both are tested where they are used.
    fn sort<'b, 'c>(self, order: &'b mut [u16], spare: &'c mut [u16], m: usize)
        requires { (m ≤ length order.old) × (m ≤ length spare.old) × (m ≤ most_slots) }
        ensures { (length order.new ≡ length order.old) × (length spare.new ≡ length spare.old) }
    {
        let mut run = 1;
        while run < m {
            self.merge_runs(&order[..m], &mut spare[..m], run);
            order[..m].copy_from_slice(&spare[..m]);
            run *= 2;
        }
    }

    // Stores the live slots; how many there are.
    fn gather<'b>(self, order: &'b mut [u16]) -> usize
        ensures { (result ≤ self.entry.count) × (length order.new ≡ length order.old) }
    {
        let mut m = 0;
        for i in 0..self.count {
            if slot_addr(self.block, self.at, i) != 0 {
                place(order, m, i);
                m += 1;
            }
        }
        m
    }

    // The first of the m cells that doesn't ascend to the next one; m if all do. It is promised only that those before it ascend.
    fn ascending(self, order: &[u16], m: usize) -> usize
        requires { (m ≤ length order.now) }
        ensures { Ascends self.entry.block.now self.entry.at self.entry.count order.now result × (result < m → result + 1 < m) }
    {
        for k in 1..m {
            if !self.ascends(order, k - 1, k) {
                return k - 1;
            }
        }
        m
    }

    // Whether every live slot is among the first m in order.
    fn ranked(self, order: &[u16], rank: &[u16], m: usize) -> bool
        requires { (m ≤ length order.now) × (self.count ≤ length rank.now) }
        ensures { result ≡ true → Ranked self.entry.block.now self.entry.at self.entry.count order.now rank.now m }
    {
        for i in 0..self.count {
            if self.live(i) & !placed(order, rank, m, i) {
                return false;
            }
        }
        true
    }

    // What slot i shows: that its name is stored twice, or nothing.
    fn twin_of(self, e: Edition, i: usize) -> Option<bool>
        ensures { IfSome result (λ once. once ≡ once_in e self.entry.block.now (slots_from self.entry.block.now self.entry.at self.entry.count 0)) }
    {
        if !self.live(i) {
            return None;
        }
        if self.clash(e, i) {
            return Some(false);
        }
        None
    }

    // The answer that an order of the live slots shows. Where all ascend, and each live slot is among them, no two have one name; where two
    // don't ascend, they have one name if the order is right, and the first of them has a twin.
    fn judge(self, e: Edition, order: &[u16], rank: &[u16], m: usize) -> Option<bool>
        requires { (m ≤ length order.now) × (self.count ≤ length rank.now) }
        ensures { IfSome result (λ once. once ≡ once_in e self.entry.block.now (slots_from self.entry.block.now self.entry.at self.entry.count 0)) }
    {
        let k = self.ascending(order, m);
        if k < m {
            let i = cell(order, k);
            let j = cell(order, k + 1);
            if j < i {
                return self.twin_of(e, j);
            }
            return self.twin_of(e, i);
        }
        if self.ranked(order, rank, m) {
            return Some(true);
        }
        None
    }

    fn sorted_with<'b, 'c>(
        self,
        e: Edition,
        order: &'b mut [u16],
        rank: &'c mut [u16],
    ) -> Option<bool>
        requires { (self.count ≤ length order.old) × (self.count ≤ length rank.old) }
        ensures { IfSome result (λ once. once ≡ once_in e self.entry.block.now (slots_from self.entry.block.now self.entry.at self.entry.count 0)) }
    {
        let m = self.gather(order);
        self.sort(order, rank, m);
        rank_all(&order[..], m, rank);
        self.judge(e, &order[..], &rank[..], m)
    }

    // By sorting the names, however many have their bits in common. The arrays have a cell for each slot that a block can have, and are made
    // only here.
    fn sorted(self, e: Edition) -> Option<bool>
        ensures { IfSome result (λ once. once ≡ once_in e self.entry.block.now (slots_from self.entry.block.now self.entry.at self.entry.count 0)) }
    {
        let mut order = [0u16; edition::LARGEST_BLOCK / 8];
        let mut rank = [0u16; edition::LARGEST_BLOCK / 8];
        self.sorted_with(e, &mut order, &mut rank)
    }

    // By sorting, and were the order wrong, which it is not in a block that has passed INDEX, by the table with as many comparisons as it takes. Both ways that
    // come before it call this one, so that its arrays are in no test's frame that does not need them: a frame's pages are touched one by one.
    fn once_slow(self, e: Edition) -> bool
        ensures { result ≡ once_in e self.entry.block.now (slots_from self.entry.block.now self.entry.at self.entry.count 0) }
    {
        if let Some(once) = self.sorted(e) {
            return once;
        }
        let mut seen = [0u64; 256];
        let last = self.once_with(e, &mut seen, self.count);
        last.unwrap()
    }

    // By a table of the names seen, of CELLS words, where no more than TURNS slots are compared with later ones before the names are sorted.
    fn once_by<const CELLS: usize, const TURNS: usize>(self, e: Edition) -> bool
        requires { (0 < CELLS) × (CELLS ≤ 1024) }
        ensures { result ≡ once_in e self.entry.block.now (slots_from self.entry.block.now self.entry.at self.entry.count 0) }
    {
        let mut seen = [0u64; CELLS];
        if let Some(once) = self.once_with(e, &mut seen, TURNS) {
            return once;
        }
        self.once_slow(e)
    }
}

// Where the data ends by here, the names are few.
const FEW: usize = 4096;

// Whether no name is stored twice.
pub fn once(e: Edition, b: &[u8], t: usize, n: usize) -> bool
    requires { (t + 8 * n ≤ length b.now) × Reach b.now t n × (n ≤ most_slots) }
    ensures { result ≡ once_in e b.now (slots_from b.now t n 0) }
{
    let slots = Slots {
        block: b,
        at: t,
        count: n,
    };
    // What is cleared and compared follows how many names there can be. Hardly one of 125 names of one hash finds its bits set by chance, and of
    // 2,000 some four do.
    if t <= FEW {
        return slots.once_by::<256, 2>(e);
    }
    slots.once_by::<1024, 24>(e)
}
