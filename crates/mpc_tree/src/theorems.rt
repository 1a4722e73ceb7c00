//! What holds of the tree of each cell, and of each table of laws.

ghost use Rattle.mpc_tree.specs.Certified.{OneTree, OneOwnTree, CertifiedIsOwn, OneFirstWide, FitsNotWide, CertifiedIsTree, CertifiedFits, TableHasLaws, TableHasShapes, TableIsSmall, MultipliersAreCert};

use mpc_rows::law_theorems;
use mpc_sets::count_theorems;
use mpc_systems::cell_theorems;

/// The program, the laws and the cell determine the tree with its certificates, and the run that is named as the first that is too
/// wide. The call does nothing: its contract is the theorem.
pub fn one_tree()
    ensures one_tree { OneTree }
    ensures one_own_tree { OneOwnTree }
    ensures is_own { CertifiedIsOwn }
    ensures one_first_wide { OneFirstWide }
    ensures fits_not_wide { FitsNotWide }
    ensures is_tree { CertifiedIsTree }
    ensures fits { CertifiedFits }
{
    law_theorems();
    cell_theorems();
}

/// Each law of a table is that of its set, with its shape; and a table is small. The call does
/// nothing: its contract is the theorems.
pub fn table_theorems()
    ensures are_laws { TableHasLaws }
    ensures have_shapes { TableHasShapes }
    ensures small { TableIsSmall }
{
    count_theorems();
}

/// The multipliers of a list that aren't 0, each with its position, have the shape of a certificate.
/// The call does nothing: its contract is the theorem.
pub fn multipliers_are_cert()
    ensures { MultipliersAreCert }
{}
