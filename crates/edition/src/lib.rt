// The editions: an edition's numbers stand together under its name, and the shared code takes them by value.
#![tactic(auto)]

ghost use Rattle.std.specs.Prelude.{◌≡◌, ◌+◌, ◌≤◌, ◌<◌};
ghost use Rattle.edition.specs.Edition.{v4, Sane, entry_size, block_size};

// What the rules take from an edition.
// Kept: that an edition is sane is asked by contracts, and not in its type: `name::hash` (README) and `name::legal` (docs/CLAIMS.md) promise
// what they say of any edition, and a type that is sane would ask more of their callers.
#[derive(Clone, Copy)]
pub struct Edition {
    // A block's first four bytes.
    pub magic: usize,
    // Where a block's three best-gap pairs start.
    pub best: usize,
    // Bytes of a block before its data; "." sits here, and ".." 16 further.
    pub header: usize,
    // The first tag after "..".
    pub first: usize,
    // Bytes of an entry's file type: 0 or 1.
    pub ftype: usize,
    // Where an inode's literal area starts.
    pub literal: usize,
    // The versions that an inode may have: from oldest to newest.
    pub oldest: usize,
    pub newest: usize,
}

#[derive(Clone, Copy)]
pub struct V4;

impl V4 {
    pub const MAGIC: usize = 0x58443242;

    pub const HEADER: usize = 16;

    pub const FIRST: usize = 48;

    pub fn edition() -> Edition
        ensures { (result ≡ v4) × Sane result }
    {
        Edition {
            magic: V4::MAGIC,
            best: 4,
            header: V4::HEADER,
            first: V4::FIRST,
            ftype: 0,
            literal: 100,
            oldest: 1,
            newest: 2,
        }
    }
}

// The largest directory block.
pub const LARGEST_BLOCK: usize = 65536;

// Whether a directory block may have this many bytes.
pub fn block_sized(n: usize) -> bool
    ensures { result ≡ block_size n }
{
    (n == 512)
        | ((n == 1024)
            | ((n == 2048)
                | ((n == 4096)
                    | ((n == 8192) | ((n == 16384) | ((n == 32768) | (n == LARGEST_BLOCK)))))))
}

// E: the bytes of an entry whose name has n bytes.
pub fn entry_size(e: Edition, n: usize) -> usize
    requires { Sane e × (n < 256) }
    ensures { (result ≡ entry_size e n) × ((11 + e.ftype + n ≤ result) × (result < 280)) }
{
    (11 + e.ftype + n + 7) / 8 * 8
}
