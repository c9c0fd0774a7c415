// Block directories: the block is lent.
ghost use Rattle.std.specs.Prelude.{◌≡◌};
ghost use Rattle.edition.specs.Edition.{v4};
ghost use Rattle.dir_block_rules.specs.Verdict.{verdict};
ghost use Rattle.dir.specs.Target.{target};
ghost use Rattle.dir_block_rules.specs.Lookup.{lookup};
ghost use Rattle.dir_block_rules.specs.Change.{insert_code, insert_bytes, remove_code, remove_bytes};
ghost use Rattle.dir_block_rules.specs.Walk.{walk_step};
ghost use Rattle.pelunziwa.specs.Answers.{as_found, as_step};

use crate::{Found, Step};
use refusal::Refusal;

// Tests a block.
#[unsafe(no_mangle)]
pub extern "C" fn pzw_block_test(block: &[u8]) -> u32
    ensures { result ≡ verdict v4 block.now }
{
    Refusal::code(dir_block_test::test(block))
}

// The inode number and the tag stored with a name, and the names compared.
#[unsafe(no_mangle)]
pub extern "C" fn pzw_block_lookup(block: &[u8], name: &[u8]) -> Found
    ensures { result ≡ as_found (lookup v4 block.now name.now) }
{
    crate::lookup_answer(dir_block_lookup::lookup(block, name))
}

// Puts an entry in.
#[unsafe(no_mangle)]
pub extern "C" fn pzw_block_insert(block: &mut [u8], name: &[u8], number: u64) -> u32
    ensures { (result ≡ insert_code v4 block.old name.now (target number 0))
        × (block.new ≡ insert_bytes v4 block.old name.now (target number 0)) }
{
    Refusal::code(dir_block_edit::insert(block, name, number))
}

// Takes an entry out.
#[unsafe(no_mangle)]
pub extern "C" fn pzw_block_remove(block: &mut [u8], name: &[u8]) -> u32
    ensures { (result ≡ remove_code v4 block.old name.now)
        × (block.new ≡ remove_bytes v4 block.old name.now) }
{
    Refusal::code(dir_block_edit::remove(block, name))
}

// One step of the walk.
#[unsafe(no_mangle)]
pub extern "C" fn pzw_block_step(block: &[u8], place: u64) -> Step
    ensures { result ≡ as_step (walk_step v4 block.now place) }
{
    dir_block_lookup::step(block, place as usize).into()
}
