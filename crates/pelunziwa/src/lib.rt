// What C and Rust call: each call of the library under a fixed name. An answer that is an enum goes out as a struct of numbers:
// `refusal` is 0 or the refusal's number, and the other fields are 0 when it is not 0, except `compared` of a block lookup's ABSENT.
// include/pelunziwa.h declares the same structs and calls for C.
#![tactic(auto)]

ghost use Rattle.std.specs.Prelude.{◌≡◌, ◌<◌};
ghost use Rattle.refusal.specs.Refusal.{numbered};
ghost use Rattle.pelunziwa.specs.Answers.{found_target, not_found, as_found, live, no_entry, as_seen, as_step};
ghost use Rattle.dir.specs.Answers.{looked_target};

use dir::{Entry, Looked, Seen, Target};
use refusal::Refusal;

mod attr;
mod block;
mod inode;
mod sfdir;

// An inode's fields.
#[repr(C)]
#[derive(Clone, Copy)]
pub struct Core {
    pub refusal: u32,
    pub magic: u32,
    pub mode: u32,
    pub version: u32,
    pub format: u32,
    pub forkoff: u32,
    pub aformat: u32,
    pub size: u64,
}

// A lookup in a directory: the file type (0 in V4), the inode number, the entry's tag, and the names compared (0 in a short form).
#[repr(C)]
#[derive(Clone, Copy)]
pub struct Found {
    pub refusal: u32,
    pub kind: u32,
    pub number: u64,
    pub tag: u64,
    pub compared: u64,
}

// Where an attribute's value lies in the lent inode.
#[repr(C)]
#[derive(Clone, Copy)]
pub struct Place {
    pub refusal: u32,
    pub start: u64,
    pub len: u64,
}

// A step of a directory's walk; seen: 0 end, 1 gap, 2 live.
#[repr(C)]
#[derive(Clone, Copy)]
pub struct Step {
    pub refusal: u32,
    pub seen: u32,
    pub next: u64,
    pub number: u64,
    pub tag: u64,
    pub kind: u64,
    pub name_start: u64,
    pub name_len: u64,
}

// A step of an attribute walk; seen: 0 end, 2 live.
#[repr(C)]
#[derive(Clone, Copy)]
pub struct AttrStep {
    pub refusal: u32,
    pub seen: u32,
    pub next: u64,
    pub flags: u64,
    pub name_start: u64,
    pub name_len: u64,
    pub value_start: u64,
    pub value_len: u64,
}

// A lookup that finds: a file type is one byte, so that no bits are lost.
fn found_target(target: Target, tag: usize, compared: usize) -> Found
    requires { target.kind < 256 }
    ensures { result ≡ found_target target tag compared }
{
    Found {
        refusal: 0,
        kind: target.kind as u32,
        number: target.inode,
        tag: tag as u64,
        compared: compared as u64,
    }
}

// A lookup that does not.
fn not_found(refusal: u32, compared: usize) -> Found
    ensures { result ≡ not_found refusal compared }
{
    Found {
        refusal,
        kind: 0,
        number: 0,
        tag: 0,
        compared: compared as u64,
    }
}

// What a lookup finds.
fn looked(found: Looked) -> Found
    requires { (looked_target (Ok found)).kind < 256 }
    ensures { result ≡ as_found (Ok found) }
{
    match found {
        Looked::Found {
            target,
            tag,
            compared,
        } => found_target(target, tag, compared),
        Looked::Absent { compared } => not_found(Refusal::Absent.number(), compared),
    }
}

// A lookup's answer, of either directory form.
fn lookup_answer(answer: Result<Looked, Refusal>) -> Found
    requires { (looked_target (numbered answer)).kind < 256 }
    ensures { result ≡ as_found (numbered answer) }
{
    match answer {
        Ok(found) => looked(found),
        Err(refusal) => not_found(refusal.number(), 0),
    }
}

// A step that meets a live entry.
fn live(next: usize, entry: Entry) -> Step
    ensures { result ≡ live next entry }
{
    Step {
        refusal: 0,
        seen: 2,
        next: next as u64,
        number: entry.target.inode,
        tag: entry.tag as u64,
        kind: entry.target.kind as u64,
        name_start: entry.start as u64,
        name_len: entry.len as u64,
    }
}

// A step that meets none.
fn no_entry(refusal: u32, seen: u32, next: usize) -> Step
    ensures { result ≡ no_entry refusal seen next }
{
    Step {
        refusal,
        seen,
        next: next as u64,
        number: 0,
        tag: 0,
        kind: 0,
        name_start: 0,
        name_len: 0,
    }
}

// What a step meets.
fn seen_step(next: usize, seen: Seen) -> Step
    ensures { result ≡ as_seen next seen }
{
    match seen {
        Seen::Live(entry) => live(next, entry),
        Seen::Gap => no_entry(0, 1, next),
        Seen::End => no_entry(0, 0, next),
    }
}

// A step's answer, of either directory form.
impl From<Result<dir::Step, Refusal>> for Step {
    ghost from_gives = { λ answer step. step ≡ as_step (numbered answer) };

    fn from(answer: Result<dir::Step, Refusal>) -> Step {
        match answer {
            Ok(step) => seen_step(step.next, step.seen),
            Err(refusal) => no_entry(refusal.number(), 0, 0),
        }
    }
}
