// The paper's refusals: one type for all code, whose numbers specs/Refusal.antt states for all definitions.
#![tactic(auto)]

ghost use Rattle.std.specs.Prelude.{◌≡◌, ◌≤◌};

// Why a call refuses. 16 is retired: it is not given, and not used again.
#[derive(Clone, Copy, Debug, PartialEq, Eq, PartialOrd, Ord)]
pub enum Refusal {
    // An inode's, a block's or the told block length isn't one allowed.
    Size = 1,
    // An inode's or a block's magic is wrong.
    Magic,
    // The inode is not of the wanted version, type or format.
    Kind,
    // A stored total doesn't fit.
    Span,
    // Records don't fill the span.
    Tile,
    // A stored name breaks the rules.
    Name,
    // A stored inode number is out of range; in a block, an entry but "." and ".." has that of "."; an attribute's flags are wrong.
    Number,
    // Stored counts or index disagree with the entries.
    Index,
    // The best-gap table is wrong.
    Best,
    // A name is stored twice.
    Twice,
    // The caller's name, number, flags or walk place are not legal.
    Asked,
    // "." or ".." inserted or removed; "." looked up in a short form.
    Fixed,
    // Lookup or removal: no such live entry.
    Absent,
    // Directory insert: the name is there.
    Exists,
    // No room, by the room rules.
    NoRoom,
}

impl Refusal {
    ghost use Rattle.refusal.specs.Refusal.{number, code, HIGHEST};

    // The paper's number.
    pub fn number(self) -> u32
        ensures { (result ≡ number self) × (result ≤ HIGHEST) }
    {
        self as u32
    }

    // The number that a call answers: 0 when nothing is refused.
    pub fn code<T: Copy>(answer: Result<T, Refusal>) -> u32
        ensures { result ≡ code answer }
    {
        match answer {
            Ok(_) => 0,
            Err(refusal) => refusal.number(),
        }
    }
}
