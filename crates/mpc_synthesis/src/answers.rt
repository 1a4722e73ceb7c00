//! A controller's answers: the tree of a table of laws answers rightly at each state of the box, its parts have the shapes of a
//! controller, and the independent checker accepts it, unless a number of its own sums is too wide. The crate has no code that
//! computes: the clauses of its functions are what it proves.

ghost use Rattle.mpc_synthesis.specs.Compiled.{OnlyWidthFound, NoRefusal, OnlyWidthErrs, FittingIsAccepted};
ghost use Rattle.mpc_synthesis.specs.RightReplies.{RightReplies, PartsHaveShapes, TableIsSmall, TableOfFourIsSmall, PlantTableIsSmall, OneTable, GridIsInBox};

use mpc_check::{law_conditions, one_finding};
use mpc_condense::{best_replies, one_program};
use mpc_controller::{one_path, preorder_theorems};
use mpc_cover::cover_theorems;
use mpc_definite::pivot_theorems;
use mpc_linear::primitive_theorems;
use mpc_rows::{law_theorems, region_theorems};
use mpc_sets::{count_theorems, order_theorems};
use mpc_tree::{multipliers_are_cert, one_tree};

/// At each state of the box, also between the grid states, the walk through the tree of a plant's table ends at the first move of the
/// unique cheapest admissible sequence, and says `infeasible` where no sequence is admissible (Tøndel, Johansen and Bemporad, 2003).
pub fn right_replies()
    ensures { RightReplies }
{
    best_replies();
    cover_theorems();
    preorder_theorems();
}

/// The plant, its table and the table's certified tree are a controller's parts: the nodes spell one tree, each law and each row of a
/// split is of the plant's size, a split's row is in whole numbers below 2^127 without a common divisor, and each leaf has its
/// certificates: one for each row of the program, or one where it has no law, over the rows of its system (Farkas 1902, Motzkin 1936).
pub fn tree_shapes()
    ensures { PartsHaveShapes }
{
    table_sizes();
    law_theorems();
    region_theorems();
    primitive_theorems();
    preorder_theorems();
    one_tree();
    multipliers_are_cert();
}

/// A table over at most 40 rows has at most 4,598,479 laws, and one in at most four unknowns has at most 523,686. So the table of a
/// plant's program has at most 4,598,479: it has more than 40 rows only where it has at most four unknowns.
pub fn table_sizes()
    ensures of_forty_rows { TableIsSmall }
    ensures of_four_unknowns { TableOfFourIsSmall }
    ensures of_plant { PlantTableIsSmall }
{
    count_theorems();
    order_theorems();
}

/// A program has one table.
pub fn one_table()
    ensures { OneTable }
{
    order_theorems();
}

/// Counts of which none is above its limit are a state of the box.
pub fn grid_points()
    ensures { GridIsInBox }
{}

/// The laws of a plant's table meet the conditions of Karush, Kuhn and Tucker coefficient by coefficient, and the certificates of its tree
/// refute the systems of its leaves (Farkas 1902, Motzkin 1936). So a check of what is compiled refuses nothing, and finds no pivot that
/// isn't positive and no number of condensing or of the pivots that is too wide. It accepts, unless a number of a sum that it forms over a
/// law or at a leaf needs more than 128 bits, or there is no memory. Where all numbers of these sums fit, the controller is one that is
/// accepted. The call does nothing: its clauses are the theorem.
pub fn compiled_accepted()
    ensures found { OnlyWidthFound }
    ensures answer { NoRefusal }
    ensures error { OnlyWidthErrs }
    ensures fitting { FittingIsAccepted }
{
    pivot_theorems();
    one_program();
    one_finding();
    law_conditions();
    one_path();
    preorder_theorems();
}
