// Short-form directories: the inode is lent, and the filesystem's directory block size told.
ghost use Rattle.std.specs.Prelude.{◌≡◌};
ghost use Rattle.edition.specs.Edition.{v4};
ghost use Rattle.dir.specs.Target.{target};
ghost use Rattle.dir_sf.specs.Inode.{verdict, lookup, insert_code, remove_code, insert_bytes, remove_bytes};
ghost use Rattle.dir_sf.specs.Walk.{walk_step};
ghost use Rattle.pelunziwa.specs.Answers.{as_found, as_step};

use crate::{Found, Step};
use refusal::Refusal;

// Tests a directory.
#[unsafe(no_mangle)]
pub extern "C" fn pzw_sfdir_test(inode: &[u8], told: u64) -> u32
    ensures { result ≡ verdict v4 told inode.now }
{
    Refusal::code(dir_sf::test(inode, told as usize))
}

// The inode number and the tag stored with a name; ".." gives the parent, and tag 0.
#[unsafe(no_mangle)]
pub extern "C" fn pzw_sfdir_lookup<'a, 'b>(inode: &'a [u8], told: u64, name: &'b [u8]) -> Found
    ensures { result ≡ as_found (lookup v4 told inode.now name.now) }
{
    crate::lookup_answer(dir_sf::lookup(inode, told as usize, name))
}

// Puts an entry in.
#[unsafe(no_mangle)]
pub extern "C" fn pzw_sfdir_insert<'a, 'b>(
    inode: &'a mut [u8],
    told: u64,
    name: &'b [u8],
    number: u64,
) -> u32
    ensures { (result ≡ insert_code v4 told inode.old name.now (target number 0))
        × (inode.new ≡ insert_bytes v4 told inode.old name.now (target number 0)) }
{
    Refusal::code(dir_sf_edit::insert(inode, told as usize, name, number))
}

// Takes an entry out.
#[unsafe(no_mangle)]
pub extern "C" fn pzw_sfdir_remove<'a, 'b>(inode: &'a mut [u8], told: u64, name: &'b [u8]) -> u32
    ensures { (result ≡ remove_code v4 told inode.old name.now)
        × (inode.new ≡ remove_bytes v4 told inode.old name.now) }
{
    Refusal::code(dir_sf_edit::remove(inode, told as usize, name))
}

// One step of the walk, from a place counted from the fork's start.
#[unsafe(no_mangle)]
pub extern "C" fn pzw_sfdir_step(inode: &[u8], told: u64, place: u64) -> Step
    ensures { result ≡ as_step (walk_step v4 told inode.now place) }
{
    dir_sf::step_at(inode, told as usize, place as usize).into()
}
