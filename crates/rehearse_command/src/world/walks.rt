// The walk: the tasks of a rehearsal are done in a world of four children, by moves that a seed chooses.
ghost use Rattle.std.specs.Prelude.{◌≡◌, ◌+◌, ◌*◌, ◌%◌, ◌/◌, ◌<◌, ◌≤◌, ◌^◌, length, option_map, IfOk, OnOk};
ghost use Rattle.journal_model.specs.Limits.{most_tasks};
ghost use Rattle.rehearse_plan.specs.Plans.{opening_of};
ghost use Rattle.rehearse_plan.specs.declared.tasks.TheConstants.{MOST_TASKS};
ghost use Rattle.pair_world.specs.declared.step.Move.TheVariants.{Event as EventMove};
ghost use Rattle.pair_world.specs.Standing.{Stands};
ghost use Rattle.pair_kit.specs.Stored.{ChangesFiles};
ghost use Rattle.rehearse_command.specs.World.Workers.{next_of};
ghost use Rattle.rehearse_command.specs.World.Walks.{Tries, TriesAll, Walked, Walks, bytes_moved, counts_in, equal_in, first_world, move_of, place, was_made};

use crate::world::sums::{counts_in, equal_in};
use crate::world::walked::Walk;
use crate::world::worker::next_of;
use ann_key::NoMemory;
use pair_world::{Move, Moved, World};
use rehearse_plan::{MOST_TASKS, files_of, opening_of};
use std::alloc::Global;

// No machine makes more moves.
const MOST_MOVES: u64 = 9_223_372_036_854_775_808;

// Where the move of that number begins among the 24.
#[tactic(auto, using(crate::proofs::WorldLemmas::Walking::place_of_rest))]
fn place(seed: u64, t: u64) -> u32
    requires { seed < 2 ^ 32 }
    ensures value { result ≡ place seed t }
    ensures few { result < 24 }
{
    let rest = t % 24;
    ((seed + rest * rest + rest) % 24) as u32
}

// How many bytes the move of that number brings of those that are there.
fn bytes_moved(t: u64, there: usize) -> u32
    ensures { result ≡ bytes_moved t there }
{
    let most = 1 + t % 64;
    if there as u64 <= most {
        there as u32
    } else {
        most as u32
    }
}

// What the worker of the child does next, as a move.
fn worker_move(alloc: Global, world: &World, child: u32) -> Result<Option<Move>, NoMemory>
    requires child { 0 < child }
    requires few { length world.now.opening.tasks ≤ most_tasks }
    ensures { IfOk result (λ step. step ≡ option_map (λ event. EventMove 0 event) (next_of world.now.opening world.now.journal child)) }
{
    match next_of(alloc, world.core(), child)? {
        Some(event) => Ok(Some(Move::Event { by: 0, event })),
        None => Ok(None),
    }
}

// One of the six moves of the child.
#[tactic(auto, unfolding(crate::specs::World::Walks::move_of))]
fn move_of(
    alloc: Global,
    world: &World,
    t: u64,
    child: u32,
    kind: u32,
) -> Result<Option<Move>, NoMemory>
    requires child { 0 < child }
    requires few { length world.now.opening.tasks ≤ most_tasks }
    ensures { IfOk result (λ step. step ≡ move_of world.now t child kind) }
{
    let (to_kit, to_host) = world.on_the_way(child);
    match kind {
        0 => worker_move(alloc, world, child),
        1 => Ok(Some(Move::Write { child })),
        2 => Ok(Some(Move::ToKit {
            child,
            n: bytes_moved(t, to_kit),
        })),
        3 => Ok(Some(Move::Work { child })),
        4 => Ok(Some(Move::ToHost {
            child,
            n: bytes_moved(t, to_host),
        })),
        _ => Ok(Some(Move::Hear { child })),
    }
}

fn was_made(moved: &Moved) -> bool
    ensures { result ≡ was_made moved.now }
{
    matches!(moved, Moved::Did(_))
}

// Makes the candidate of that number, where it can be made.
fn try_move(alloc: Global, world: &mut World, t: u64, q: u32) -> Result<bool, NoMemory>
    requires number { q < 24 }
    requires stands { Stands world.old }
    ensures tries { IfOk result (λ made. Tries t q world.old made world.new) }
    ensures stands { OnOk result (Stands world.new) }
    ensures files { OnOk result (ChangesFiles world.old world.new) }
{
    let Some(step) = move_of(alloc, world, t, 1 + q / 6, q % 6)? else {
        return Ok(false);
    };
    let moved = world.step(step)?;
    Ok(was_made(&moved))
}

// Makes the move of that number: of the 24 candidates the first that can be made, if one can.
fn make_move(alloc: Global, world: &mut World, seed: u64, t: u64) -> Result<bool, NoMemory>
    requires seed { seed < 2 ^ 32 }
    requires stands { Stands world.old }
    ensures tries { IfOk result (λ made. TriesAll seed t world.old made world.new) }
    ensures stands { OnOk result (Stands world.new) }
    ensures files { OnOk result (ChangesFiles world.old world.new) }
{
    let from = place(seed, t);
    'candidates: for before in 0..24 {
        if try_move(alloc, world, t, (from + before) % 24)? {
            return Ok(true);
        }
    }
    Ok(false)
}

// Makes moves as long as one can be made.
fn make_moves(alloc: Global, world: &mut World, seed: u64) -> Result<(), NoMemory>
    requires seed { seed < 2 ^ 32 }
    requires stands { Stands world.old }
    ensures walks { OnOk result (Walks seed world.old world.new) }
    ensures opening { OnOk result (world.new.opening ≡ world.old.opening) }
    ensures stands { OnOk result (Stands world.new) }
    ensures files { OnOk result (ChangesFiles world.old world.new) }
{
    'moves: for before in 0..MOST_MOVES {
        if !make_move(alloc, world, seed, before + 1)? {
            return Ok(());
        }
    }
    Ok(())
}

// The world in which the walk begins.
fn begin(alloc: Global, seed: u64, tasks: u32) -> Result<World, NoMemory>
    requires seed { seed < 2 ^ 32 }
    requires tasks { tasks ≤ MOST_TASKS }
    ensures begun { IfOk result (λ world. world ≡ first_world seed tasks) }
    ensures stands { IfOk result Stands }
{
    let files = files_of(alloc, tasks)?;
    let opening = opening_of(alloc, seed as u32, tasks)?;
    World::new(alloc, opening, files)
}

// Makes the moves of the walk. Then says how many answers count for each word, and how many tasks got the content of their keys.
fn walk_in(
    alloc: Global,
    world: &mut World,
    seed: u64,
    tasks: u32,
) -> Result<([u64; 7], u64), NoMemory>
    requires seed { seed < 2 ^ 32 }
    requires tasks { tasks ≤ MOST_TASKS }
    requires few { length world.old.opening.tasks ≤ most_tasks }
    requires stands { Stands world.old }
    ensures walks { OnOk result (Walks seed world.old world.new) }
    ensures opening { OnOk result (world.new.opening ≡ world.old.opening) }
    ensures stands { OnOk result (Stands world.new) }
    ensures files { OnOk result (ChangesFiles world.old world.new) }
    ensures counts { IfOk result (λ n. (n.0 ≡ counts_in world.new) × (n.1 ≡ equal_in seed tasks world.new)) }
{
    make_moves(alloc, world, seed)?;
    let counts = counts_in(alloc, world)?;
    let equal = equal_in(alloc, world, seed as u32, tasks)?;
    Ok((counts, equal))
}

/// Does the tasks of a rehearsal, by that seed, in a world of four children. It touches nothing outside.
///
/// The seed and the number of each move choose among the 24 moves that there may be: of each child what its worker does next, and
/// the five between it and the host. The walk ends when none of them can be made.
pub fn walk(alloc: Global, seed: u64, tasks: u32) -> Result<Walk, NoMemory>
    requires seed { seed < 2 ^ 32 }
    requires tasks { tasks ≤ MOST_TASKS }
    ensures walked { IfOk result (λ walk. Walked seed tasks walk.world) }
    ensures stands { IfOk result (λ walk. Stands walk.world) }
    ensures opening { IfOk result (λ walk. walk.world.opening ≡ opening_of seed tasks) }
    ensures files { IfOk result (λ walk. ChangesFiles (first_world seed tasks) walk.world) }
    ensures counts { IfOk result (λ walk. walk.counts ≡ counts_in walk.world) }
    ensures equal { IfOk result (λ walk. walk.equal ≡ equal_in seed tasks walk.world) }
{
    let mut world = begin(alloc, seed, tasks)?;
    let (counts, equal) = walk_in(alloc, &mut world, seed, tasks)?;
    Ok(Walk {
        counts,
        equal,
        world,
    })
}
