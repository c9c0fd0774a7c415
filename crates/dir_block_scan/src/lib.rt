// The gaps of a block: T, the longest others, and the best-gap table anew, by what the block stores where that names all gaps, else by one pass
// over its records.
#![tactic(auto)]

ghost use Rattle.std.specs.Prelude.{Bool, ◌≡◌, ◌+◌, ◌-◌, ◌≤◌, ◌<◌, cond, [], ◌∷◌, length};
ghost use Rattle.be.specs.Bytes.{put, field};
ghost use Rattle.edition.specs.Edition.{entry_size, Sane};
ghost use Rattle.dir_block_rules.specs.Record.{gaps, besides};
ghost use Rattle.dir_block_rules.specs.Block.{records, data_end};
ghost use Rattle.dir_block_rules.specs.Verdict.{Pair, pair, best_pairs};
ghost use Rattle.dir_block_rules.specs.Change.{best_of, with_best, pair_bytes};
ghost use Rattle.dir_block_laws.specs.Tiled.{Tiled, Ready};
ghost use Rattle.dir_block_laws.specs.BestSoFar.{ins, ins_all, ins_at, ahead};
ghost use Rattle.dir_block_laws.specs.JoinedTable.{empty_table, joined_table, in_order, ins_besides};
ghost use Rattle.dir_block_laws.specs.UsedTable.{less, used_table};
ghost use Rattle.dir_block_laws.specs.Pass.{Place, GapsBefore, GapsUpTo, NextPlace, Scanned, Surveyed};
ghost use Rattle.dir_block_scan.specs.Table.{pair_of, table, three, top, first, longer, put_by};

use edition::Edition;

// A gap, or none: where it starts, and how long it is.
#[derive(Clone, Copy)]
pub struct Gap {
    pub at: usize,
    pub len: usize,
}

// No gap.
const NONE: Gap = Gap { at: 0, len: 0 };

// Where a walk stands; four gaps: after a pass the longest, else what the function says; and where that is asked for the gap at the slots
// (none: the data's end, and 0).
#[derive(Clone, Copy)]
pub struct Scan {
    pub at: usize,
    pub first: Gap,
    pub second: Gap,
    pub third: Gap,
    pub fourth: Gap,
    pub last: Gap,
}

// A gap stands first, and the others move down by one.
fn before_all(s: Scan, g: Gap) -> Scan
    ensures { (table result ≡ pair_of g ∷ three s) × (three result ≡ pair_of g ∷ top s) }
{
    Scan {
        first: g,
        second: s.first,
        third: s.second,
        fourth: s.third,
        ..s
    }
}

// Which gap stands before which in a table.
trait Order {
    ghost precedes: { Pair → Pair → Bool };

    fn precedes(g: Gap, h: Gap) -> bool
        ensures { result ≡ precedes (pair_of g) (pair_of h) };
}

// The longer one.
struct Longer;

impl Order for Longer {
    ghost precedes = { longer };

    fn precedes(g: Gap, h: Gap) -> bool {
        h.len < g.len
    }
}

// The longer one, or as long with a lower offset.
struct Ahead;

impl Order for Ahead {
    ghost precedes = { ahead };

    fn precedes(g: Gap, h: Gap) -> bool {
        (h.len < g.len) | ((h.len == g.len) & (g.at < h.at))
    }
}

// A gap goes into the table, before the first that it stands before.
fn insert<O: Order>(s: Scan, g: Gap) -> Scan
    ensures { (table result ≡ put_by O.precedes (pair_of g) (table s)) × (three result ≡ put_by O.precedes (pair_of g) (three s)) }
{
    if O::precedes(g, s.first) {
        return before_all(s, g);
    }
    if O::precedes(g, s.second) {
        return Scan {
            second: g,
            third: s.second,
            fourth: s.third,
            ..s
        };
    }
    if O::precedes(g, s.third) {
        return Scan {
            third: g,
            fourth: s.third,
            ..s
        };
    }
    if O::precedes(g, s.fourth) {
        return Scan { fourth: g, ..s };
    }
    s
}

// A gap goes into the table, behind those that are as long.
fn with_gap(s: Scan, g: Gap) -> Scan
    ensures { (table result ≡ ins (pair_of g) (table s)) × (three result ≡ ins (pair_of g) (three s)) }
{
    insert::<Longer>(s, g)
}

// A gap goes into the table where it belongs, also among those that are as long.
fn with_gap_at(s: Scan, g: Gap) -> Scan
    ensures { (table result ≡ ins_at (pair_of g) (table s)) × (three result ≡ ins_at (pair_of g) (three s)) }
{
    insert::<Ahead>(s, g)
}

// No gap; a walk stands at o.
fn start(o: usize) -> Scan
    ensures { (table result ≡ best_of 4 []) × (three result ≡ empty_table) × (result.at ≡ o) }
{
    Scan {
        at: o,
        first: NONE,
        second: NONE,
        third: NONE,
        fourth: NONE,
        last: NONE,
    }
}

// The table of f with the pairs of g, whose gaps lie behind.
fn merged(f: Scan, g: Scan) -> Scan
    ensures { table result ≡ ins_all (table g) (table f) }
{
    let r1 = with_gap(f, g.first);
    let r2 = with_gap(r1, g.second);
    let r3 = with_gap(r2, g.third);
    with_gap(r3, g.fourth)
}

// The walk from the front, over one record.
fn forward(e: Edition, b: &[u8], f: Scan) -> Scan
    requires sane { Sane e × Tiled e b.now }
    requires gaps_before { GapsBefore e b.now f.at (table f) × (f.at < data_end b.now) }
    ensures { GapsBefore e b.now result.at (table result) × NextPlace e b.now f.at result.at }
{
    let o = f.at;
    let k = be::be16(b, o);
    if k == 65535 {
        let l = be::be16(b, o + 2);
        let mut r = with_gap(f, Gap { at: o, len: l });
        r.at = o + l;
        return r;
    }
    let c = be::be8(b, o + 8);
    let n = edition::entry_size(e, c);
    let mut r = f;
    r.at = o + n;
    r
}

// The walk from place v, back over one record by its tag, unless the walk from the front, at o, has come as far.
fn backward(e: Edition, b: &[u8], v: usize, g: Scan, o: usize) -> Scan
    requires sane { Sane e × Tiled e b.now }
    requires gaps_up_to { GapsUpTo e b.now v g.at (table g) × (Place e b.now o × (o ≤ g.at)) }
    ensures { GapsUpTo e b.now v result.at (table result) × ((o ≤ result.at) × (result.at ≤ g.at)) }
{
    if g.at <= o {
        return g;
    }
    let p = be::be16(b, g.at - 2);
    let k = be::be16(b, p);
    if k == 65535 {
        let mut r = with_gap_at(
            g,
            Gap {
                at: p,
                len: g.at - p,
            },
        );
        r.at = p;
        return r;
    }
    let mut r = g;
    r.at = p;
    r
}

// The gap at the slots: the last record starts where its tag says.
fn last_gap(e: Edition, b: &[u8], end: usize) -> Gap
    requires sane { Sane e × Tiled e b.now }
    requires end_value { end ≡ data_end b.now }
    ensures { Scanned e b.now [] result.at result.len }
{
    let mut r = Gap { at: end, len: 0 };
    if end == e.header {
        return r;
    }
    let p = be::be16(b, end - 2);
    if be::be16(b, p) == 65535 {
        r.at = p;
        r.len = end - p;
    }
    r
}

// Over the records before place v, from both ends at once: each record's place waits for the one before, so two walks over half of them take
// half the time. What the block's longest gaps are needs three; where one of them is used, the fourth is the third of those left.
fn pass(e: Edition, b: &[u8], v: usize) -> Scan
    requires sane { Sane e × Tiled e b.now }
    requires place { Place e b.now v }
    ensures { GapsBefore e b.now v (table result) }
{
    let mut f = start(e.header);
    let mut g = start(v);
    while f.at < g.at {
        f = forward(e, b, f);
        g = backward(e, b, v, g, f.at);
    }
    merged(f, g)
}

// The pair of the best-gap table at o.
fn pair_at(b: &[u8], o: usize) -> Gap
    requires { o + 4 ≤ length b.now }
    ensures { (result.at ≡ field o 2 b.now) × (result.len ≡ field (o + 2) 2 b.now) }
{
    Gap {
        at: be::be16(b, o),
        len: be::be16(b, o + 2),
    }
}

// The pairs that the block stores.
pub fn stored(e: Edition, b: &[u8]) -> Scan
    requires { Sane e × (e.header ≤ length b.now) }
    ensures { three result ≡ best_pairs e b.now }
{
    Scan {
        at: 0,
        first: pair_at(b, e.best),
        second: pair_at(b, e.best + 4),
        third: pair_at(b, e.best + 8),
        fourth: NONE,
        last: NONE,
    }
}

// The first two pairs in offset order.
fn ordered(s: Scan) -> Scan
    ensures { top result ≡ in_order (pair_of s.first) (pair_of s.second) }
{
    if s.second.at < s.first.at {
        return Scan {
            first: s.second,
            second: s.first,
            ..s
        };
    }
    s
}

// A gap goes into the table, if it is to.
fn with_some(s: Scan, put: bool, g: Gap) -> Scan
    ensures { (table result ≡ cond put (ins (pair_of g) (table s)) (table s)) × (three result ≡ cond put (ins (pair_of g) (three s)) (three s)) }
{
    if put {
        return with_gap(s, g);
    }
    s
}

// The table of the first two pairs of s, but for one that starts at u.
fn others(s: Scan, u: usize) -> Scan
    ensures { table result ≡ ins_besides u (in_order (pair_of s.first) (pair_of s.second)) (best_of 4 []) }
{
    let d = ordered(s);
    let t = with_some(start(0), d.first.at != u, d.first);
    with_some(t, d.second.at != u, d.second)
}

// The longest gaps other than T, which is t. Without a third pair the first two name all gaps, and no pass is made.
fn others_of(e: Edition, b: &[u8], t: Gap) -> Scan
    requires sane { Sane e × Ready e b.now }
    requires scanned { Scanned e b.now [] t.at t.len }
    ensures { best_of 4 (besides t.at (gaps (records e b.now))) ≡ table result }
{
    let s = stored(e, b);
    if s.third.len == 0 {
        return others(s, t.at);
    }
    pass(e, b, t.at)
}

// T, and the longest gaps other than it.
pub fn survey(e: Edition, b: &[u8], end: usize) -> Scan
    requires sane { Sane e × Ready e b.now }
    requires end_value { end ≡ data_end b.now }
    ensures { Surveyed e b.now (table result) result.last.at result.last.len }
{
    let last = last_gap(e, b, end);
    let others = others_of(e, b, last);
    Scan { last, ..others }
}

// The longest gap, as the first pair: T only if it is longer than the others, which lie before it.
pub fn longest(e: Edition, b: &[u8], g: Scan) -> Scan
    requires sane { Sane e × Ready e b.now }
    requires surveyed { Surveyed e b.now (table g) g.last.at g.last.len }
    ensures { Scanned e b.now (first result) result.last.at result.last.len × ((result.last.at ≡ g.last.at) × (result.last.len ≡ g.last.len)) }
{
    if g.first.len < g.last.len {
        return Scan { first: g.last, ..g };
    }
    g
}

// Writes the first three pairs at o.
fn put_table(b: &mut [u8], o: usize, s: Scan)
    requires { o + 12 ≤ length b.old }
    ensures { b.new ≡ put b.old o (pair_bytes (three s)) }
{
    be::put16(b, o, s.first.at);
    be::put16(b, o + 2, s.first.len);
    be::put16(b, o + 4, s.second.at);
    be::put16(b, o + 6, s.second.len);
    be::put16(b, o + 8, s.third.at);
    be::put16(b, o + 10, s.third.len);
}

// The best-gap table anew.
pub fn best_table(e: Edition, b: &mut [u8])
    requires { Sane e × Tiled e b.old }
    ensures { b.new ≡ with_best e b.old }
{
    let n = b.len();
    let c = be::be32(&b[..], n - 8);
    let s = pass(e, &b[..], n - 8 - 8 * c);
    put_table(b, e.best, s);
}

// The table of the first two pairs of s, with one gap from o up to u in place of those that start there.
fn joined(s: Scan, o: usize, u: usize) -> Scan
    requires { o ≤ u }
    ensures { three result ≡ joined_table o u (in_order (pair_of s.first) (pair_of s.second)) }
{
    let d = ordered(s);
    let t1 = with_some(start(0), d.first.at < o, d.first);
    let t2 = with_some(t1, d.second.at < o, d.second);
    let t3 = with_gap(t2, Gap { at: o, len: u - o });
    let t4 = with_some(t3, u <= d.first.at, d.first);
    with_some(t4, u <= d.second.at, d.second)
}

// The best-gap table anew, where s are the pairs stored before a gap from o up to u took the place of what was there. Without a third
// pair the first two named all gaps, and no pass is made.
pub fn joined_table(e: Edition, b: &mut [u8], s: Scan, o: usize, u: usize)
    requires sane { Sane e × Tiled e b.old }
    requires o_le_u { o ≤ u }
    requires b_value { s.third.len ≡ 0 → best_of 3 (gaps (records e b.old)) ≡ joined_table o u (in_order (pair_of s.first) (pair_of s.second)) }
    ensures { b.new ≡ with_best e b.old }
{
    if s.third.len == 0 {
        let t = joined(s, o, u);
        put_table(b, e.best, t);
        return;
    }
    best_table(e, b);
}

// The three longest of the other gaps, where n bytes off the start of the longest are used.
fn used_other(g: Scan, n: usize) -> Scan
    requires { (n ≤ g.first.len) × (g.first.at + g.first.len ≤ 65536) }
    ensures { three result ≡ ins_at (less n (pair_of g.first)) (pair_of g.second ∷ pair_of g.third ∷ pair_of g.fourth ∷ []) }
{
    let rest = Scan {
        first: g.second,
        second: g.third,
        third: g.fourth,
        ..g
    };
    let left = Gap {
        at: g.first.at + n,
        len: g.first.len - n,
    };
    with_gap_at(rest, left)
}

// What is left of a gap where n bytes off its start are used; nothing where it has no more.
fn past(g: Gap, n: usize) -> Gap
    requires { (g.at ≤ 65536) × (n < 280) }
    ensures { pair_of result ≡ pair (g.at + n) (g.len - n) }
{
    Gap {
        at: g.at + n,
        len: g.len.saturating_sub(n),
    }
}

// The longest gaps that an insert leaves, which needs n bytes, by the room rule's cases, where there is room.
fn used(g: Scan, n: usize, stale: usize) -> Scan
    requires n_nonzero { (0 < n) × ((n < 280) × (stale < 8192)) }
    requires l1_bound { (0 < g.first.len → g.first.at + g.first.len ≤ 65536) × (g.last.at + g.last.len ≤ 65536) }
    ensures { three result ≡ used_table n stale (pair_of g.last) (table g) }
{
    if stale == 0 {
        // A slot takes 8 bytes off T's end.
        let k = g.last.len.saturating_sub(8);
        let shorter = Gap { len: k, ..g.last };
        if n <= g.first.len {
            return with_gap(used_other(g, n), shorter);
        }
        return with_gap(g, past(shorter, n));
    }
    if (g.last.len <= g.first.len) & (n <= g.first.len) {
        return with_gap(used_other(g, n), g.last);
    }
    if n <= g.last.len {
        return with_gap(g, past(g.last, n));
    }
    // T grows over the stale slots but one.
    let len = g.last.len + 8 * (stale - 1);
    with_gap(g, past(Gap { len, ..g.last }, n))
}

// The best-gap table anew, after an entry with a name of n bytes went in: before that so many slots were stale, and g was the survey.
pub fn used_table(e: Edition, b: &mut [u8], g: Scan, stale: usize, n: usize)
    requires sane { Sane e × Tiled e b.old }
    requires n_bound { (n < 256) × (stale < 8192) }
    requires l1_bound { (0 < g.first.len → g.first.at + g.first.len ≤ 65536) × (g.last.at + g.last.len ≤ 65536) }
    requires b_value { best_of 3 (gaps (records e b.old)) ≡ used_table (entry_size e n) stale (pair_of g.last) (table g) }
    ensures { b.new ≡ with_best e b.old }
{
    let need = edition::entry_size(e, n);
    put_table(b, e.best, used(g, need, stale));
}
