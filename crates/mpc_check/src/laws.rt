//! What is found of the laws: they are asked in whole numbers first, and those that aren't seen to meet their conditions in fractions.

ghost use Rattle.std.specs.Prelude.{◌≤◌, All, IfSome, IsTrue, length};
ghost use Rattle.mpc_rows.specs.Laws.{HasLawShape};
ghost use Rattle.mpc_check.specs.Findings.{IsSearched, EachFrom};
ghost use Rattle.mpc_check.specs.LawConditions.{LawMet, LawFinds, LawAtMet, LawsMet, LawsFind};
ghost use Rattle.mpc_check.specs.Stretches.{IsStretchOf};
ghost use Rattle.mpc_check.specs.WholeLaws.{IsProgramOver};

use crate::answers::{CheckError, Spot};
use crate::gradients::search_in_fractions;
use crate::numbers::WholeProgram;
use crate::stretches::{FEWEST_LAWS, Stretch, stretches};
use crate::whole_laws::is_met_in_wholes;
use mpc_forks::map_vec;
use mpc_rows::{Law, LawTable, Qp};
use std::alloc::Global;
use std::thread::Threads;

/// Whether the conditions on a law are seen to be met in whole numbers.
fn is_seen_met(qp: &Qp, program: &Option<WholeProgram>, law: &Law) -> bool
    requires program { IfSome program.now (IsProgramOver qp.now) }
    requires shape { HasLawShape qp.now law.now }
    ensures { IsTrue result → LawMet qp.now law.now }
{
    match program {
        Some(program) => is_met_in_wholes(qp, program, law),
        None => false,
    }
}

/// What is found of a law with this number. Only where its conditions aren't seen to be met in whole numbers are they tested in fractions,
/// in their order.
fn search_law(
    qp: &Qp,
    program: &Option<WholeProgram>,
    number: u32,
    law: &Law,
) -> Result<Option<Spot>, CheckError>
    requires program { IfSome program.now (IsProgramOver qp.now) }
    requires shape { HasLawShape qp.now law.now }
    ensures { IsSearched (LawMet qp.now law.now) (LawFinds qp.now number law.now) result }
{
    if is_seen_met(qp, program, law) {
        return Ok(None);
    }
    search_in_fractions(qp, number, law)
}

/// What is found of the laws, in their order.
pub fn search_each(
    qp: &Qp,
    program: &Option<WholeProgram>,
    laws: &LawTable,
) -> Result<Option<Spot>, CheckError>
    requires program { IfSome program.now (IsProgramOver qp.now) }
    requires few { length laws.now ≤ 4598479 }
    requires shapes { All (HasLawShape qp.now) laws.now }
    ensures { IsSearched (LawsMet qp.now laws.now) (LawsFind qp.now laws.now) result }
{
    for place in 0..laws.len() {
        match search_law(qp, program, place as u32 + 1, laws.at(place)) {
            Ok(None) => {}
            found => return found,
        }
    }
    Ok(None)
}

/// Whether the conditions on each law of a stretch are seen to be met in whole numbers.
fn are_seen_met(qp: &Qp, program: &Option<WholeProgram>, laws: &LawTable, stretch: Stretch) -> bool
    requires program { IfSome program.now (IsProgramOver qp.now) }
    requires shapes { All (HasLawShape qp.now) laws.now }
    requires stretch { IsStretchOf (length laws.now) stretch }
    ensures { IsTrue result → EachFrom (LawAtMet qp.now laws.now) stretch.from stretch.to }
{
    for place in stretch.from..stretch.to {
        if !is_seen_met(qp, program, laws.at(place)) {
            return false;
        }
    }
    true
}

/// Whether all of these are so.
fn are_all(answers: &[bool]) -> bool
    ensures { IsTrue result → All IsTrue answers.now }
{
    answers.iter().all(|answer| *answer)
}

/// Whether the conditions on all laws are seen to be met in whole numbers. Stretches of them are asked side by side, each in a thread of its
/// own where one can be started, and else by the caller. Without memory nothing is seen.
pub fn are_all_seen_met<T: Threads>(
    rt: &T,
    alloc: Global,
    qp: &Qp,
    program: &Option<WholeProgram>,
    laws: &LawTable,
) -> bool
    requires program { IfSome program.now (IsProgramOver qp.now) }
    requires shapes { All (HasLawShape qp.now) laws.now }
    ensures { IsTrue result → LawsMet qp.now laws.now }
{
    let Ok(stretches) = stretches(alloc, laws.len(), FEWEST_LAWS) else {
        return false;
    };
    let ask = |stretch: Stretch| are_seen_met(qp, program, laws, stretch);
    match map_vec(rt, stretches, &ask) {
        Ok(answers) => are_all(answers.as_slice()),
        Err(_) => false,
    }
}
