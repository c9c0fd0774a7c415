// The inode core: tests 1 to 3, the fields handed out, and where the forks lie.
#![tactic(auto)]

ghost use Rattle.std.specs.Prelude.{◌≡◌, ◌≤◌, length};
ghost use Rattle.edition.specs.Edition.{v4, Sane};
ghost use Rattle.refusal.specs.Refusal.{code, numbered};
ghost use Rattle.dinode.specs.Core.{core_of, inode_size, version_ok, directory_ok, attributes_ok, data_length};
ghost use Rattle.dinode.specs.Core.{inode_code, directory_code, attributes_code, tested, tested_code, directory_fork, attributes_fork};

use edition::{Edition, V4};
use refusal::Refusal;

// Where the size field lies.
pub const SIZE_PLACE: usize = 56;

// The fields that are handed out.
#[derive(Clone, Copy)]
pub struct Core {
    pub magic: usize,
    pub mode: usize,
    pub version: usize,
    pub format: usize,
    pub size: u64,
    pub forkoff: usize,
    pub aformat: usize,
}

// Where a fork lies in the inode.
#[derive(Clone, Copy)]
pub struct Fork {
    pub start: usize,
    pub len: usize,
}

// Whether an inode may have this many bytes.
fn sized(n: usize) -> bool
    ensures { result ≡ inode_size n }
{
    (n == 256) | (n == 512) | (n == 1024) | (n == 2048)
}

// Whether the edition has inodes of this version.
fn versioned(e: Edition, v: usize) -> bool
    ensures { result ≡ version_ok e v }
{
    (e.oldest <= v) & (v <= e.newest)
}

// The fields of what is long enough to have them.
fn fields(b: &[u8]) -> Core
    requires { 100 ≤ length b.now }
    ensures { result ≡ core_of b.now }
{
    let magic = be::be16(b, 0);
    let mode = be::be16(b, 2);
    let version = be::be8(b, 4);
    let format = be::be8(b, 5);
    let size = be::be64(b, SIZE_PLACE);
    let forkoff = be::be8(b, 82);
    let aformat = be::be8(b, 83);
    Core {
        magic,
        mode,
        version,
        format,
        size,
        forkoff,
        aformat,
    }
}

// Tests 1 to 3.
fn check(e: Edition, b: &[u8]) -> Result<(), Refusal>
    requires { Sane e }
    ensures { code result ≡ inode_code e b.now }
{
    if !sized(b.len()) {
        return Err(Refusal::Size);
    }
    if be::be16(b, 0) != 0x494e {
        return Err(Refusal::Magic);
    }
    if !versioned(e, be::be8(b, 4)) {
        return Err(Refusal::Kind);
    }
    if b.len() < e.literal + 8 * be::be8(b, 82) {
        return Err(Refusal::Kind);
    }
    Ok(())
}

// Tests any bytes as an inode of the V4 edition, and hands the fields out.
pub fn test(b: &[u8]) -> Result<Core, Refusal>
    ensures { (numbered result ≡ tested v4 b.now) × (tested_code (numbered result) ≡ inode_code v4 b.now) × (code result ≡ inode_code v4 b.now) }
{
    check(V4::edition(), b)?;
    Ok(fields(b))
}

// Whether the inode is a local directory's.
fn directory(b: &[u8]) -> bool
    requires { 100 ≤ length b.now }
    ensures { result ≡ directory_ok b.now }
{
    (be::be16(b, 2) / 4096 == 4) & (be::be8(b, 5) == 1)
}

// Whether the inode has local attributes.
fn attributes(b: &[u8]) -> bool
    requires { 100 ≤ length b.now }
    ensures { result ≡ attributes_ok b.now }
{
    (be::be8(b, 83) == 1) & (be::be8(b, 82) != 0)
}

// Tests 1 to 3 of a directory's inode.
fn check_directory(e: Edition, b: &[u8]) -> Result<(), Refusal>
    requires { Sane e }
    ensures { code result ≡ directory_code e b.now }
{
    check(e, b)?;
    if !directory(b) {
        return Err(Refusal::Kind);
    }
    Ok(())
}

// Tests 1 to 3 of an inode with attributes.
fn check_attributes(e: Edition, b: &[u8]) -> Result<(), Refusal>
    requires { Sane e }
    ensures { code result ≡ attributes_code e b.now }
{
    check(e, b)?;
    if !attributes(b) {
        return Err(Refusal::Kind);
    }
    Ok(())
}

// How long the data fork of a directory that passes the tests is.
pub fn data_long(e: Edition, b: &[u8]) -> usize
    requires { Sane e × (directory_code e b.now ≡ 0) }
    ensures { result ≡ data_length e b.now }
{
    let forkoff = be::be8(b, 82);
    if forkoff == 0 {
        return b.len() - e.literal;
    }
    8 * forkoff
}

// The data fork of a local directory.
pub fn fork_of_directory(e: Edition, b: &[u8]) -> Result<Fork, Refusal>
    requires { Sane e }
    ensures { numbered result ≡ directory_fork e b.now }
{
    check_directory(e, b)?;
    Ok(Fork {
        start: e.literal,
        len: data_long(e, b),
    })
}

// The attribute fork of an inode with local attributes.
pub fn fork_of_attributes(e: Edition, b: &[u8]) -> Result<Fork, Refusal>
    requires { Sane e }
    ensures { numbered result ≡ attributes_fork e b.now }
{
    check_attributes(e, b)?;
    let start = e.literal + 8 * be::be8(b, 82);
    Ok(Fork {
        start,
        len: b.len() - start,
    })
}
