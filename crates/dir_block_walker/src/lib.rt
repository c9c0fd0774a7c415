// A walker over a block directory: it keeps hold of the block and its place between steps. `step` and `advance` take
// the walker apart and call the plain walk, in one place (`met`).
#![tactic(auto)]

ghost use Rattle.std.specs.Prelude.{◌≡◌};
ghost use Rattle.edition.specs.Edition.{v4};
ghost use Rattle.refusal.specs.Refusal.{numbered};
ghost use Rattle.dir_block_rules.specs.Walk.{StepPromise};
ghost use Rattle.dir_block_walker.specs.Place.{Says, place_after, moved, nth_place};

use dir::Step;
use edition::V4;
use refusal::Refusal;

// The block that the walker holds, and its place.
#[derive(Clone, Copy)]
pub struct Walker<'a> {
    pub block: &'a [u8],
    pub place: usize,
}

// A walker at the walk's start.
pub fn start<'a>(block: &'a [u8]) -> Walker<'a>
    ensures { (result.block ≡ block.entry) × (result.place ≡ v4.header) }
{
    Walker {
        block,
        place: V4::HEADER,
    }
}

// What stands at a place of the block: the plain walk's step.
fn met(block: &[u8], place: usize) -> Result<Step, Refusal>
    ensures { StepPromise v4 block.now place (numbered result) }
{
    dir_block_lookup::step(block, place)
}

// What stands at the walker's place. The walker stays.
pub fn step<'a>(w: Walker<'a>) -> Result<Step, Refusal>
    ensures { Says w.entry (numbered result) }
{
    met(w.block, w.place)
}

// The place after a step from p.
fn place_after(p: usize, walked: Result<Step, Refusal>) -> usize
    ensures { result ≡ place_after p (numbered walked) }
{
    match walked {
        Ok(s) => s.next,
        Err(_) => p,
    }
}

// What stands at the walker's place, and the walker moves on: at the end and after a refusal it stays.
pub fn advance<'s, 'a>(w: &'s mut Walker<'a>) -> Result<Step, Refusal>
    ensures { Says w.old (numbered result) × (w.new ≡ moved w.old) }
{
    let p = w.place;
    let walked = met(w.block, p);
    w.place = place_after(p, walked);
    walked
}

// One step of a walker that stands at a place.
pub fn step_from(block: &[u8], place: usize) -> Result<Step, Refusal>
    ensures { StepPromise v4 block.now place (numbered result) }
{
    step(Walker { block, place })
}

// What a walker meets after n steps: it keeps its place between them.
pub fn nth(block: &[u8], n: usize) -> Result<Step, Refusal>
    ensures { StepPromise v4 block.now (nth_place block.now n) (numbered result) }
{
    let mut w = start(block);
    for _ in 0..n {
        advance(&mut w)?;
    }
    step(w)
}
