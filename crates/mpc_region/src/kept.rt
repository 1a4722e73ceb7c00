//! What is kept of a program from one of its sets to the next: the runs of the beginnings of the last set.

ghost use Rattle.std.specs.Prelude.{◌≡◌, ◌+◌, ◌-◌, ◌*◌, ◌<◌, ◌≤◌, [], IfOk, OnOk, length, take, vec_len};
ghost use Rattle.mpc_space.specs.Matrix.{height};
ghost use Rattle.mpc_sets.specs.RowSet.{IsSetOfRows};
ghost use Rattle.mpc_region.specs.Kept.{AreReachRuns, IsKept, IsReachRun};

use crate::refuters::Refuters;
use mpc_frac::NoMemory;
use mpc_rows::{Qp, law_theorems};
use mpc_sets::ActiveSet;
use mpc_simplex::{Beginning, Workspace};
use mpc_systems::{reach_system, region_system};
use std::alloc::Global;

/// What is kept of a program from one of its sets to the next.
#[derive(Drop)]
pub struct Kept {
    /// The last set that was to be reached.
    pub set: ActiveSet,
    /// The run of the states that reach the first k members of the set, for k from 0 on, but for the whole
    /// set: nothing where whole numbers don't serve for it.
    pub reaches: Vec<Option<Beginning>>,
    /// The run of the box alone.
    pub states: Option<Beginning>,
    /// Lists for the runs of regions.
    pub work: Workspace,
    /// The rows that showed of the last empty regions that they are.
    pub refuters: Refuters,
}

/// Nothing is kept yet but the run of the box, which takes no step.
pub fn kept_of(alloc: Global, qp: &Qp) -> Result<Kept, NoMemory>
    ensures { IfOk result (IsKept qp.now) }
{
    let system = region_system(alloc, qp, &[])?;
    let states = Beginning::begin(alloc, &system)?;
    Ok(Kept {
        set: ActiveSet::empty(),
        reaches: Vec::new(alloc),
        states,
        work: Workspace::new(alloc),
        refuters: Refuters::new(alloc),
    })
}

/// With how many members alike two sets begin.
pub fn shared_members(one: ActiveSet, other: ActiveSet) -> u32
    ensures in_one { result ≤ length one }
    ensures in_other { result ≤ length other }
    ensures alike { take result one ≡ take result other }
{
    let most = one.size().min(other.size());
    for index in 0..most {
        if one.member(index + 1) != other.member(index + 1) {
            return index;
        }
    }
    most
}

/// The run of the set without members.
fn first_run(alloc: Global, qp: &Qp) -> Result<Option<Beginning>, NoMemory>
    ensures { IfOk result (IsReachRun qp.now []) }
{
    let system = reach_system(alloc, qp, ActiveSet::empty())?;
    Beginning::begin(alloc, &system)
}

/// Where the row of a member stands in the system of the states that reach a set, from 0: behind the box.
pub fn joint_place(qp: &Qp, member: u32) -> usize
    requires { 1 ≤ member }
    ensures { result ≡ 2 * length qp.now.counts + (member - 1) }
{
    2 * qp.counts.len() + (member - 1) as usize
}

/// The run of one member more than so many first ones, by that of these: the row of that member, the
/// other way round, comes behind.
fn next_run(
    alloc: Global,
    qp: &Qp,
    work: &mut Workspace,
    set: ActiveSet,
    members: u32,
    before: &Option<Beginning>,
) -> Result<Option<Beginning>, NoMemory>
    requires set_of_rows { IsSetOfRows (height qp.now.g) set }
    requires member { members < length set }
    requires before { IsReachRun qp.now (take members set) before.now }
    ensures { IfOk result (IsReachRun qp.now (take (members + 1) set)) }
{
    law_theorems();
    prove!(members < set.size());
    let Some(run) = before else {
        return Ok(None);
    };
    let place = joint_place(qp, set.member(members + 1));
    run.extend_turned(alloc, work, place)
}

/// The run that comes behind these runs of the set's first members.
fn further_run(
    alloc: Global,
    qp: &Qp,
    work: &mut Workspace,
    set: ActiveSet,
    runs: &[Option<Beginning>],
) -> Result<Option<Beginning>, NoMemory>
    requires set_of_rows { IsSetOfRows (height qp.now.g) set }
    requires room { length runs.now ≤ length set }
    requires runs { AreReachRuns qp.now set runs.now }
    ensures { IfOk result (IsReachRun qp.now (take (length runs.now) set)) }
{
    let count = runs.len();
    prove!(count <= set.size() as usize);
    if count == 0 {
        return first_run(alloc, qp);
    }
    next_run(alloc, qp, work, set, count as u32 - 1, &runs[count - 1])
}

/// One more run of the set. Without memory the others stay.
fn push_run(alloc: Global, qp: &Qp, kept: &mut Kept) -> Result<(), NoMemory>
    requires kept { IsKept qp.now kept.old }
    requires set_of_rows { IsSetOfRows (height qp.now.g) kept.old.set }
    requires room { vec_len kept.old.reaches ≤ length kept.old.set }
    ensures kept { IsKept qp.now kept.new }
    ensures set { kept.new.set ≡ kept.old.set }
    ensures one_more { OnOk result (vec_len kept.new.reaches ≡ vec_len kept.old.reaches + 1) }
{
    let run = further_run(alloc, qp, &mut kept.work, kept.set, &kept.reaches)?;
    let Ok(()) = kept.reaches.push(run) else {
        return Err(NoMemory);
    };
    Ok(())
}

/// Goes on to a set: the runs of the members with which the last set and this one begin alike stay, and
/// each further member's but the last one's comes behind. Without memory some of these are missing.
pub fn turn_to(alloc: Global, qp: &Qp, kept: &mut Kept, set: ActiveSet) -> Result<(), NoMemory>
    requires kept { IsKept qp.now kept.old }
    requires set_of_rows { IsSetOfRows (height qp.now.g) set }
    ensures kept { IsKept qp.now kept.new }
    ensures set { kept.new.set ≡ set }
    ensures some { OnOk result (1 ≤ vec_len kept.new.reaches) }
    ensures most { OnOk result (length set ≤ vec_len kept.new.reaches) }
{
    let shared = shared_members(kept.set, set);
    kept.reaches.truncate(shared as usize + 1);
    kept.set = set;
    let size = (set.size() as usize).max(1);
    for _count in kept.reaches.len()..size {
        push_run(alloc, qp, kept)?;
    }
    Ok(())
}
