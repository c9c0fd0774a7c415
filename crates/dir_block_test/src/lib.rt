// The test of a block directory: any bytes, refused by the first test that fails. One pass over the slots, which leaves
// each slot's hash and address in a table by address; one over the records; and, where slots have one hash, one more over the slots.
#![tactic(auto)]

ghost use Rattle.std.specs.Prelude.{◌≡◌, true, false, not, ◌&&◌, cond, ◌+◌, ◌*◌, ◌-◌, ◌/◌, ◌%◌, ◌≤◌, ◌<◌, min, eqb, leb, ltb, length, set, replicate};
ghost use Rattle.std.specs.Bool.{beq};
ghost use Rattle.be.specs.Bytes.{byte, field, part};
ghost use Rattle.be.specs.Words.{le};
ghost use Rattle.edition.specs.Edition.{v4, Sane};
ghost use Rattle.refusal.specs.Refusal.{number, code};
ghost use Rattle.name.specs.Name.{legal_name};
ghost use Rattle.dir_block_rules.specs.Record.{says, gaps, entries};
ghost use Rattle.dir_block_rules.specs.Verdict.{number_fits, best_pairs, best_ok, index_ok, verdict};
ghost use Rattle.dir_block_twice.specs.Twice.{slots_from};
ghost use Rattle.dir_block_test.specs.Passes.{rest, whole_len, ordered_with, level, slot_word, cells_of, hint, name_fits, fault_at, own_at, best_of_pairs, pair_of, which, fault_of, Surveyed, Faulted, after_index, after_tile, after_span, tile_from, Parts};

use edition::{Edition, V4};
use refusal::Refusal;

// Whether the record at o is a gap.
fn is_gap(b: &[u8], o: usize) -> bool
    requires { o + 8 ≤ length b.now }
    ensures { result ≡ eqb (field o 2 b.now) 0xffff }
{
    be::ones_at(b, o)
}

// How long the record at o says it is; the data ends at t.
fn rec_len(e: Edition, b: &[u8], o: usize, t: usize) -> usize
    requires sane { Sane e }
    requires o_bound { (o + 8 ≤ t) × (t ≤ length b.now) }
    ensures { (result ≡ says e (part o (t - o) b.now)) × (result < 65536) }
{
    if is_gap(b, o) {
        return be::be16(b, o + 2);
    }
    if t - o < 9 {
        return edition::entry_size(e, 0);
    }
    edition::entry_size(e, be::be8(b, o + 8))
}

// How long the record at o is, if it is whole.
fn whole_len(e: Edition, b: &[u8], o: usize, t: usize) -> Option<usize>
    requires sane { Sane e }
    requires o_bound { (o + 8 ≤ t) × (t ≤ length b.now) }
    ensures { result ≡ whole_len e (part o (t - o) b.now) o }
{
    let n = rec_len(e, b, o, t);
    if n < 8 {
        return None;
    }
    if t - o < n {
        return None;
    }
    if n % 8 != 0 {
        return None;
    }
    if be::be16(b, o + n - 2) != o {
        return None;
    }
    Some(n)
}

// Stores the word of a hash and an address in the address's cell, if the table has it.
fn keep(cells: &mut [u64], a: usize, h: usize)
    requires { (a < 4294967296) × (h < 4294967296) }
    ensures { cells.new ≡ set cells.old a (slot_word h a) }
{
    if a < cells.len() {
        cells[a] = h as u64 * 4294967296 + a as u64;
    }
}

// What the pass over the slots shows: whether their hashes never fall and as many are stale as should be; whether neighbours have one hash
// (or the first slot's is 0, which only costs time).
#[derive(Clone, Copy)]
struct Run {
    good: bool,
    equal: bool,
}

// Whether the cell of address a has the word of hash h.
fn has_slot(cells: &[u64], h: usize, a: usize) -> bool
    requires { (a < length cells.now) × (a < 4294967296) × (h < 4294967296) }
    ensures { result ≡ hint cells.now a h }
{
    cells[a] == h as u64 * 4294967296 + a as u64
}

// Whether a name may stand at o: it is legal, and "." and ".." stand in their places and nowhere else.
fn name_fits(e: Edition, legal: bool, s: &[u8], o: usize) -> bool
    requires sane { Sane e }
    requires legal_value { legal ≡ legal_name e s.now }
    ensures { result ≡ name_fits e o s.now }
{
    if !legal {
        return false;
    }
    if (2 < s.len()) & (e.header + 16 < o) {
        return true;
    }
    if name::equal(s, b".") != (o == e.header) {
        return false;
    }
    name::equal(s, b"..") == (o == e.header + 16)
}

// Whether the number at o may stand there, with the name s: it is legal, and only "." and ".." bear that of ".", which is the word `own`.
fn number_fits(e: Edition, b: &[u8], o: usize, s: &[u8], own: u64) -> bool
    requires { (o + 8 ≤ length b.now) × (e.header + 8 ≤ length b.now) × (own ≡ le (part e.header 8 b.now)) }
    ensures { result ≡ number_fits e (own_at e b.now) s.now (field o 8 b.now) }
{
    if !name_words::number_legal_at(b, o) {
        return false;
    }
    if be::le64(b, o) != own {
        return true;
    }
    name::fixed(s)
}

// The first test that the entry at o fails: NAME, NUMBER or INDEX. The number of "." is the word `own`.
fn entry_fault(e: Edition, b: &[u8], o: usize, t: usize, cells: &[u64], own: u64) -> Option<Refusal>
    requires sane { Sane e }
    requires header_in_bounds { (e.header + 8 ≤ length b.now) × (own ≡ le (part e.header 8 b.now)) }
    requires t_in_bounds { (t + 8 ≤ length b.now) × (t < 65536) × (t ≤ 8 * length cells.now) × (o + 9 + byte (o + 8) b.now ≤ t) }
    ensures { fault_of result ≡ fault_at e (own_at e b.now) (hint cells.now) b.now o }
{
    let from = o + 9;
    let end = from + be::be8(b, o + 8);
    let c = name_words::check_in(e, b, from, end);
    if !name_fits(e, c.legal, &b[from..end], o) {
        return Some(Refusal::Name);
    }
    if !number_fits(e, b, o, &b[from..end], own) {
        return Some(Refusal::Number);
    }
    if has_slot(cells, c.hash, o / 8) {
        return None;
    }
    Some(Refusal::Index)
}

// The fault of the test that comes first. That y is none, as for most entries, is asked first: it saves time.
fn first_fault(x: Option<Refusal>, y: Option<Refusal>) -> Option<Refusal>
    ensures { fault_of result ≡ min (fault_of x) (fault_of y) }
{
    match (y, x) {
        (None, _) => x,
        (Some(s), Some(r)) => { if s < r { y } else { x } }
        (Some(_), None) => y,
    }
}

// Whether a fault is that of the test r, or of one before it.
fn fails(fault: Option<Refusal>, r: Refusal) -> bool
    ensures { result ≡ leb (fault_of fault) (number r) }
{
    match fault {
        Some(x) => x <= r,
        None => false,
    }
}

// A pair of the best-gap table.
#[derive(Clone, Copy, PartialEq)]
struct Best {
    from: usize,
    long: usize,
}

// Whether the pair names a gap of n bytes at o.
fn named(p: Best, o: usize, n: usize) -> bool
    ensures { result ≡ (eqb o p.from && eqb n p.long) }
{
    Best { from: o, long: n } == p
}

// Which of the pairs names the gap of n bytes at o.
fn which(o: usize, n: usize, pairs: [Best; 3]) -> Option<usize>
    ensures { result ≡ which o n (pair_of pairs 0) (pair_of pairs 1) (pair_of pairs 2) }
{
    if named(pairs[0], o, n) {
        return Some(0);
    }
    if named(pairs[1], o, n) {
        return Some(1);
    }
    if named(pairs[2], o, n) {
        return Some(2);
    }
    None
}

// What the pass over tiled records shows: how many entries there are; the first test that one of their names, numbers and slots fails;
// whether the pairs name the longest gaps.
#[derive(Clone, Copy)]
struct Survey {
    entries: usize,
    fault: Option<Refusal>,
    best: bool,
}

// The pair at o.
fn pair_at(b: &[u8], o: usize) -> Best
    requires { o + 4 ≤ length b.now }
    ensures { (result.from ≡ field o 2 b.now) × (result.long ≡ field (o + 2) 2 b.now) × (result.long < 65536) }
{
    let from = be::be16(b, o);
    let long = be::be16(b, o + 2);
    Best { from, long }
}

fn is_zero(p: Best) -> bool
    ensures { result ≡ (eqb p.from 0 && eqb p.long 0) }
{
    p == Best { from: 0, long: 0 }
}

// BEST: whether the pairs do not rise, and name the longest gaps.
fn best_fits(pairs: [Best; 3], left: bool) -> bool
    ensures { result ≡ (leb (pair_of pairs 1).long (pair_of pairs 0).long && (leb (pair_of pairs 2).long (pair_of pairs 1).long && left)) }
{
    (pairs[1].long <= pairs[0].long) & ((pairs[2].long <= pairs[1].long) & left)
}

// Whether an entry stands at o.
fn entry_at(b: &[u8], o: usize, t: usize) -> bool
    requires { o < t → o + 8 ≤ length b.now }
    ensures { result ≡ (ltb o t && not (eqb (field o 2 b.now) 0xffff)) }
{
    if o < t {
        return !is_gap(b, o);
    }
    false
}

// The table of slots has a cell for every 8 bytes up to the data's end. Clearing that of the largest block would show in the test of a
// small one: what is cleared follows the block's size.
const CELLS_1: usize = 128;

const CELLS_4: usize = 512;

const CELLS_16: usize = 2048;

const CELLS_64: usize = edition::LARGEST_BLOCK / 8;

// A block whose parts lie in it: its data ends at t, where n slots stand, of which m should be stale.
#[derive(Clone, Copy)]
struct Block<'a> {
    e: Edition,
    b: &'a [u8],
    t: usize,
    n: usize,
    m: usize,
    ghost sane: { Sane e },
    ghost parts: { Parts e b.now t n },
    ghost counted: { m ≤ n },
}

impl<'a> Block<'a> {
    // Goes over the slots, and keeps each one's word in the cell of its address.
    fn slots<'b>(self, cells: &'b mut [u64]) -> Run
        ensures { let s = self.entry in (result.good ≡ ordered_with 0 0 s.m (slots_from s.b.now s.t s.n 0)) × (result.equal ≡ level 0 (slots_from s.b.now s.t s.n 0))
            × (cells.new ≡ cells_of s.b.now s.t cells.old s.n) }
    {
        let mut last = 0;
        let mut stale = 0;
        let mut good = true;
        let mut equal = false;
        for i in 0..self.n {
            let h = dir_block_twice::slot_hash(self.b, self.t, i);
            let a = dir_block_twice::slot_addr(self.b, self.t, i);
            keep(cells, a, h);
            good = good & (last <= h);
            equal = equal | (last == h);
            stale += usize::from(a == 0);
            last = h;
        }
        Run {
            good: good & (stale == self.m),
            equal,
        }
    }

    // Goes over the records. A pair of zeros need not name a gap. Records that are not tiled show nothing. Whether a record is a gap is asked
    // before its length, which asks that too: so the answer is known there, and is not worked out twice.
    fn walk(self, cells: &[u64], pairs: [Best; 3]) -> Option<Survey>
        requires { self.t ≤ 8 * length cells.now }
        ensures { let s = self.entry in Surveyed s.e (own_at s.e s.b.now) (hint cells.now) (rest s.e s.b.now s.t (length s.b.now) s.e.header)
            (best_of_pairs (pair_of pairs 0) (pair_of pairs 1) (pair_of pairs 2)
            (gaps (rest s.e s.b.now s.t (length s.b.now) s.e.header)))
            result }
    {
        let own = be::le64(self.b, self.e.header);
        let mut o = self.e.header;
        let mut after = false;
        let mut entries = 0;
        let mut fault = None;
        let mut named = [is_zero(pairs[0]), is_zero(pairs[1]), is_zero(pairs[2])];
        let mut best = true;
        while o < self.t {
            if !is_gap(self.b, o) {
                let len = whole_len(self.e, self.b, o, self.t)?;
                fault = first_fault(fault, entry_fault(self.e, self.b, o, self.t, cells, own));
                entries += 1;
                after = false;
                o += len;
                continue;
            }
            let len = whole_len(self.e, self.b, o, self.t)?;
            if after {
                return None;
            }
            match which(o, len, pairs) {
                Some(i) => named[i] = true,
                None => best = best & (len <= pairs[2].long),
            }
            after = true;
            o += len;
        }
        Some(Survey {
            entries,
            fault,
            best: best & (named[0] & (named[1] & named[2])),
        })
    }

    // The tests from BEST on. Names are compared only if neighbours have one hash.
    fn test_best(self, best: bool, equal: bool) -> Result<(), Refusal>
        requires tiles { tile_from self.e false (rest self.e self.b.now self.t (length self.b.now) self.e.header) ≡ true }
        requires indexed { index_ok self.e (rest self.e self.b.now self.t (length self.b.now) self.e.header) (slots_from self.b.now self.t self.n 0) self.m ≡ true }
        requires best_is { best ≡ best_ok (best_pairs self.e self.b.now) (gaps (rest self.e self.b.now self.t (length self.b.now) self.e.header)) }
        requires equal_is { equal ≡ level 0 (slots_from self.b.now self.t self.n 0) }
        ensures { let s = self.entry in code result ≡ after_index s.e s.b.now (rest s.e s.b.now s.t (length s.b.now) s.e.header) }
    {
        if !best {
            return Err(Refusal::Best);
        }
        if !equal {
            return Ok(());
        }
        if !dir_block_twice::once(self.e, self.b, self.t, self.n) {
            return Err(Refusal::Twice);
        }
        Ok(())
    }

    // The tests from NAME on, by what the passes showed.
    fn test_entries(self, run: Run, survey: Survey, best: bool) -> Result<(), Refusal>
        requires tiles { tile_from self.e false (rest self.e self.b.now self.t (length self.b.now) self.e.header) ≡ true }
        requires shown { (survey.entries ≡ length (entries (rest self.e self.b.now self.t (length self.b.now) self.e.header)))
            × (run.good ≡ ordered_with 0 0 self.m (slots_from self.b.now self.t self.n 0)) × (run.equal ≡ level 0 (slots_from self.b.now self.t self.n 0))
            × Faulted self.e self.b.now self.t self.n (fault_of survey.fault)
            × (best ≡ best_ok (best_pairs self.e self.b.now) (gaps (rest self.e self.b.now self.t (length self.b.now) self.e.header))) }
        ensures { let s = self.entry in code result ≡ after_tile s.e s.b.now (rest s.e s.b.now s.t (length s.b.now) s.e.header)
            (slots_from s.b.now s.t s.n 0) s.m }
    {
        let header = self.e.header;
        if fails(survey.fault, Refusal::Name) {
            return Err(Refusal::Name);
        }
        if !(entry_at(self.b, header, self.t) & entry_at(self.b, header + 16, self.t)) {
            return Err(Refusal::Name);
        }
        if fails(survey.fault, Refusal::Number) {
            return Err(Refusal::Number);
        }
        if !(run.good & (self.n - self.m == survey.entries)) {
            return Err(Refusal::Index);
        }
        if fails(survey.fault, Refusal::Index) {
            return Err(Refusal::Index);
        }
        self.test_best(best, run.equal)
    }

    // The tests from TILE on, with a table of zeros for the slots.
    fn test_data_with<'b>(self, cells: &'b mut [u64]) -> Result<(), Refusal>
        requires table { (self.t ≤ 8 * length cells.old) × (cells.old ≡ replicate (length cells.old) 0) }
        ensures { let s = self.entry in code result ≡ after_span s.e s.b.now (rest s.e s.b.now s.t (length s.b.now) s.e.header)
            (slots_from s.b.now s.t s.n 0) s.m }
    {
        let run = self.slots(cells);
        let best = self.e.best;
        let pairs = [
            pair_at(self.b, best),
            pair_at(self.b, best + 4),
            pair_at(self.b, best + 8),
        ];
        let Some(survey) = self.walk(&cells[..], pairs) else {
            return Err(Refusal::Tile);
        };
        self.test_entries(run, survey, best_fits(pairs, survey.best))
    }

    // The same, with a table of so many cells.
    fn test_data_by<const CELLS: usize>(self) -> Result<(), Refusal>
        requires { (self.t ≤ 8 * CELLS) × (CELLS ≤ 8192) }
        ensures { let s = self.entry in code result ≡ after_span s.e s.b.now (rest s.e s.b.now s.t (length s.b.now) s.e.header)
            (slots_from s.b.now s.t s.n 0) s.m }
    {
        let mut cells = [0u64; CELLS];
        self.test_data_with(&mut cells)
    }

    // The tests from TILE on.
    fn test_data(self) -> Result<(), Refusal>
        ensures { let s = self.entry in code result ≡ after_span s.e s.b.now (rest s.e s.b.now s.t (length s.b.now) s.e.header)
            (slots_from s.b.now s.t s.n 0) s.m }
    {
        if self.t <= 8 * CELLS_1 {
            return self.test_data_by::<CELLS_1>();
        }
        if self.t <= 8 * CELLS_4 {
            return self.test_data_by::<CELLS_4>();
        }
        if self.t <= 8 * CELLS_16 {
            return self.test_data_by::<CELLS_16>();
        }
        self.test_data_by::<CELLS_64>()
    }
}

// The test of a block of an edition: refused by the first test that fails.
pub fn check(e: Edition, b: &[u8]) -> Result<(), Refusal>
    requires { Sane e }
    ensures { code result ≡ verdict e b.now }
{
    let len = b.len();
    if !edition::block_sized(len) {
        return Err(Refusal::Size);
    }
    if be::be32(b, 0) != e.magic {
        return Err(Refusal::Magic);
    }
    let n = be::be32(b, len - 8);
    let m = be::be32(b, len - 4);
    if len < e.header + 8 * n + 8 {
        return Err(Refusal::Span);
    }
    if n < m {
        return Err(Refusal::Span);
    }
    let block = Block {
        e,
        b,
        t: len - 8 - 8 * n,
        n,
        m,
    };
    block.test_data()
}

// The test of a block of the V4 edition.
pub fn test(b: &[u8]) -> Result<(), Refusal>
    ensures { code result ≡ verdict v4 b.now }
{
    check(V4::edition(), b)
}
