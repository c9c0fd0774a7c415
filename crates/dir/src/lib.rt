// What both directory forms share: what a name stands for, and the answers of lookup and walk. Their numbers and values, the
// calls, and the book of demand 3 stand in specs/.
#![tactic(auto)]

ghost use Rattle.std.specs.Prelude.{◌≡◌, ◌+◌, ◌≤◌, length};
ghost use Rattle.be.specs.Bytes.{field, to_be, put};
ghost use Rattle.edition.specs.Edition.{Sane};
ghost use Rattle.dir.specs.Target.{legal_type, legal_target, legal_in, kept_of};

use edition::Edition;

// What an entry's name stands for: an inode number and a file type, 0 where the edition has none.
#[derive(Clone, Copy)]
pub struct Target {
    pub inode: u64,
    pub kind: usize,
}

// What a lookup that is not refused finds: what the name stands for, its entry's tag, and `compared`, the names compared in a block, 0 in a
// short form; or no such entry.
#[derive(Clone, Copy)]
pub enum Looked {
    Found {
        target: Target,
        tag: usize,
        compared: usize,
    },
    Absent {
        compared: usize,
    },
}

// A live entry: what its name stands for, its tag, and where the name lies in the lent bytes.
#[derive(Clone, Copy)]
pub struct Entry {
    pub target: Target,
    pub tag: usize,
    pub start: usize,
    pub len: usize,
}

// What a step of the walk meets. A short form has no gaps.
#[derive(Clone, Copy)]
pub enum Seen {
    Live(Entry),
    Gap,
    End,
}

// Where the walk now stands, and what it met.
#[derive(Clone, Copy)]
pub struct Step {
    pub next: usize,
    pub seen: Seen,
}

// The file type at an offset; 0 where the edition has none.
pub fn kind(e: Edition, b: &[u8], o: usize) -> usize
    requires { Sane e × (o + e.ftype ≤ length b.now) }
    ensures { result ≡ field o e.ftype b.now }
{
    if e.ftype == 0 {
        return 0;
    }
    be::be8(b, o)
}

// Stores a file type at an offset, where the edition has one.
pub fn put_kind(e: Edition, b: &mut [u8], o: usize, v: usize)
    requires { Sane e × (o + e.ftype ≤ length b.old) }
    ensures { b.new ≡ put b.old o (to_be e.ftype v) }
{
    if e.ftype == 0 {
        return;
    }
    be::put8(b, o, v);
}

// What an entry keeps of a target: an edition without a type byte ignores the type.
pub fn kept(e: Edition, t: Target) -> Target
    ensures { result ≡ kept_of e t }
{
    if e.ftype == 0 {
        return Target {
            inode: t.inode,
            kind: 0,
        };
    }
    t
}

// Whether a file type is legal: 1 to 8 where the edition has one, else any.
fn type_legal(e: Edition, kind: usize) -> bool
    ensures { result ≡ legal_type e kind }
{
    (e.ftype == 0) | ((1 <= kind) & (kind <= 8))
}

// Whether an asked number and file type are legal.
pub fn target_legal(e: Edition, t: Target) -> bool
    ensures { result ≡ legal_target e t }
{
    name::number_legal(t.inode) & type_legal(e, t.kind)
}

// Whether an insert may ask for a target in a directory whose own number is `own`.
pub fn legal_in(e: Edition, own: u64, t: Target) -> bool
    ensures { result ≡ legal_in e own t }
{
    target_legal(e, t) & (t.inode != own)
}
