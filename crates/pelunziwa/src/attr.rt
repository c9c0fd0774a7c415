// Short-form attributes: the inode is lent; an attribute is named by its name and flags.
ghost use Rattle.std.specs.Prelude.{◌≡◌};
ghost use Rattle.edition.specs.Edition.{v4};
ghost use Rattle.attr_sf.specs.Calls.{verdict, lookup, remove_code, set_code, remove_bytes, set_bytes};
ghost use Rattle.attr_sf.specs.Walk.{walk_step};
ghost use Rattle.refusal.specs.Refusal.{numbered};
ghost use Rattle.pelunziwa.specs.Answers.{as_place, no_attr, as_attr_seen, as_attr_step};

use crate::{AttrStep, Place};
use attr_sf::Attr;
use refusal::Refusal;

// Tests the attributes of an inode.
#[unsafe(no_mangle)]
pub extern "C" fn pzw_attr_test(inode: &[u8]) -> u32
    ensures { result ≡ verdict v4 inode.now }
{
    Refusal::code(attr_sf::test(inode))
}

// Where a value lies, for C.
impl From<Result<attr_sf::Place, Refusal>> for Place {
    ghost from_gives = { λ answer place. place ≡ as_place (numbered answer) };

    fn from(answer: Result<attr_sf::Place, Refusal>) -> Place {
        match answer {
            Ok(place) => Place {
                refusal: 0,
                start: place.start as u64,
                len: place.len as u64,
            },
            Err(refusal) => Place {
                refusal: refusal.number(),
                start: 0,
                len: 0,
            },
        }
    }
}

// Where a value lies in the inode.
#[unsafe(no_mangle)]
pub extern "C" fn pzw_attr_lookup<'a, 'b>(inode: &'a [u8], name: &'b [u8], flags: u32) -> Place
    ensures { result ≡ as_place (lookup v4 inode.now name.now flags) }
{
    attr_sf::lookup(inode, name, flags as usize).into()
}

// Stores a value, in place of an equal name's.
#[unsafe(no_mangle)]
pub extern "C" fn pzw_attr_set<'a, 'b, 'c>(
    inode: &'a mut [u8],
    name: &'b [u8],
    flags: u32,
    value: &'c [u8],
) -> u32
    ensures { (result ≡ set_code v4 inode.old name.now flags value.now)
        × (inode.new ≡ set_bytes v4 inode.old name.now flags value.now) }
{
    Refusal::code(attr_sf::set(inode, name, flags as usize, value))
}

// Takes an attribute out.
#[unsafe(no_mangle)]
pub extern "C" fn pzw_attr_remove<'a, 'b>(inode: &'a mut [u8], name: &'b [u8], flags: u32) -> u32
    ensures { (result ≡ remove_code v4 inode.old name.now flags)
        × (inode.new ≡ remove_bytes v4 inode.old name.now flags) }
{
    Refusal::code(attr_sf::remove(inode, name, flags as usize))
}

// A step that meets no attribute.
fn no_attr(refusal: u32, next: usize) -> AttrStep
    ensures { result ≡ no_attr refusal next }
{
    AttrStep {
        refusal,
        seen: 0,
        next: next as u64,
        flags: 0,
        name_start: 0,
        name_len: 0,
        value_start: 0,
        value_len: 0,
    }
}

// What a step meets.
fn seen_step(next: usize, seen: Option<Attr>) -> AttrStep
    ensures { result ≡ as_attr_seen next seen }
{
    match seen {
        Some(a) => AttrStep {
            refusal: 0,
            seen: 2,
            next: next as u64,
            flags: a.flags as u64,
            name_start: a.name_start as u64,
            name_len: a.name_len as u64,
            value_start: a.value_start as u64,
            value_len: a.value_len as u64,
        },
        None => no_attr(0, next),
    }
}

// A step's answer, for C.
impl From<Result<attr_sf::Step, Refusal>> for AttrStep {
    ghost from_gives = { λ answer step. step ≡ as_attr_step (numbered answer) };

    fn from(answer: Result<attr_sf::Step, Refusal>) -> AttrStep {
        match answer {
            Ok(step) => seen_step(step.next, step.seen),
            Err(refusal) => no_attr(refusal.number(), 0),
        }
    }
}

// One step of the walk, from a place counted from the fork's start.
#[unsafe(no_mangle)]
pub extern "C" fn pzw_attr_step_at(inode: &[u8], place: u64) -> AttrStep
    ensures { result ≡ as_attr_step (walk_step v4 inode.now place) }
{
    attr_sf::step_at(inode, place as usize).into()
}
