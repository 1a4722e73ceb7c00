//! How the parts of a controller are searched: one after another by the caller, or side by side in threads.

ghost use Rattle.std.specs.Prelude.{◌≤◌, All, IfOk, length};
ghost use Rattle.mpc_rows.specs.Laws.{HasLawShape};
ghost use Rattle.mpc_check.specs.Borders.{AreBorders};
ghost use Rattle.mpc_check.specs.Findings.{IsSearched};
ghost use Rattle.mpc_check.specs.LawConditions.{LawsMet, LawsFind};
ghost use Rattle.mpc_check.specs.LeafConditions.{TreeMet, TreeFinds};
ghost use Rattle.mpc_check.specs.LeafSystems.{NamesLaw};
ghost use Rattle.mpc_check.specs.Stretches.{HaveProgramShapes};

use crate::answers::{CheckError, Spot};
use crate::borders::{Formed, form_stretch, joined, named_laws};
use crate::laws::{are_all_seen_met, search_each};
use crate::stretches::{FEWEST_LAWS, FEWEST_NODES, Stretch, stretches};
use crate::trees::{first_answer, search_stretch};
use crate::whole_laws::whole_program;
use mpc_forks::map_vec;
use mpc_frac::NoMemory;
use mpc_rows::{LawTable, Qp, Tree};
use std::alloc::Global;
use std::thread::Threads;

/// How the parts of a controller are searched. The bodies that stand here search them one after another, by the caller alone; what has
/// [`Threads`] shares them out.
pub trait Search {
    /// What is found of the laws, in their order: where one of them doesn't meet the conditions of optimality (Karush 1939, Kuhn and Tucker
    /// 1951), coefficient by coefficient. Without memory for the program in whole numbers, the laws are tested in fractions.
    fn search_laws(
        &self,
        alloc: Global,
        qp: &Qp,
        laws: &LawTable,
    ) -> Result<Option<Spot>, CheckError>
        requires few { length laws.now ≤ 4598479 }
        requires shapes { All (HasLawShape qp.now) laws.now }
        ensures { IsSearched (LawsMet qp.now laws.now) (LawsFind qp.now laws.now) result }
    {
        let program = whole_program(alloc, qp);
        search_each(qp, &program, laws)
    }

    /// The rows of each law that a leaf names, and none of the other laws.
    fn form_borders(
        &self,
        alloc: Global,
        qp: &Qp,
        laws: &LawTable,
        tree: &Tree,
    ) -> Result<Vec<Vec<Formed>>, NoMemory>
        requires shapes { All (HasLawShape qp.now) laws.now }
        requires named { All (NamesLaw (length laws.now)) tree.now }
        ensures { IfOk result (λ v. AreBorders qp.now laws.now v.items) }
    {
        let named = named_laws(alloc, laws.len(), tree)?;
        let whole = Stretch {
            from: 0,
            to: laws.len(),
        };
        form_stretch(alloc, qp, laws, named.as_slice(), whole)
    }

    /// What is found of the tree, in preorder.
    fn search_tree(
        &self,
        alloc: Global,
        qp: &Qp,
        laws: &LawTable,
        tree: &Tree,
    ) -> Result<Option<Spot>, CheckError>
        requires shapes { HaveProgramShapes qp.now laws.now tree.now }
        ensures { IsSearched (TreeMet qp.now laws.now tree.now) (TreeFinds qp.now laws.now tree.now) result }
    {
        let borders = self.form_borders(alloc, qp, laws, tree)?;
        let whole = Stretch {
            from: 0,
            to: tree.len(),
        };
        search_stretch(alloc, qp, laws, borders.as_slice(), tree, whole)
    }
}

/// Stretches of neighbours are searched side by side, each in a thread of its own where one can be started, and else by the caller. No lock
/// is waited for.
impl<T: Threads> Search for T {
    /// Only where not all laws are seen to meet their conditions in whole numbers are they searched one after another, by the caller alone.
    fn search_laws(
        &self,
        alloc: Global,
        qp: &Qp,
        laws: &LawTable,
    ) -> Result<Option<Spot>, CheckError> {
        let program = whole_program(alloc, qp);
        if are_all_seen_met(self, alloc, qp, &program, laws) {
            return Ok(None);
        }
        search_each(qp, &program, laws)
    }

    fn form_borders(
        &self,
        alloc: Global,
        qp: &Qp,
        laws: &LawTable,
        tree: &Tree,
    ) -> Result<Vec<Vec<Formed>>, NoMemory> {
        let marks = named_laws(alloc, laws.len(), tree)?;
        let named = marks.as_slice();
        let stretches = stretches(alloc, laws.len(), FEWEST_LAWS)?;
        let form = |stretch: Stretch| form_stretch(alloc, qp, laws, named, stretch);
        match map_vec(self, stretches, &form) {
            Ok(parts) => joined(alloc, parts),
            Err(_) => Err(NoMemory),
        }
    }

    /// All share the rows of the laws, which are formed before.
    fn search_tree(
        &self,
        alloc: Global,
        qp: &Qp,
        laws: &LawTable,
        tree: &Tree,
    ) -> Result<Option<Spot>, CheckError> {
        let formed = self.form_borders(alloc, qp, laws, tree)?;
        let borders = formed.as_slice();
        let stretches = stretches(alloc, tree.len(), FEWEST_NODES)?;
        let search = |stretch: Stretch| search_stretch(alloc, qp, laws, borders, tree, stretch);
        match map_vec(self, stretches, &search) {
            Ok(answers) => first_answer(answers.as_slice()),
            Err(_) => Err(CheckError::NoMemory),
        }
    }
}
