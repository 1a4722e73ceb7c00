//! What is written of a plant's controller, and of a controller's file.

ghost use Rattle.mpc_theorem.specs.FileOutputs.{CompiledIsOutput, OneFile, OfItsController, AcceptedIsRightFile, RepliedIsOutput, ConvertedIsOutput};

use crate::controller_files::controller_file;
use crate::plant_files::plant_texts;
use mpc_condense::one_program;
use mpc_synthesis::{one_table, right_controller};
use mpc_tree::{one_tree, table_theorems};

/// What the libraries say of the files that they write and accept is what these outputs mean. The call does nothing: its clauses are the
/// theorems.
pub fn file_output_theorems()
    ensures compiled { CompiledIsOutput }
    ensures one_file { OneFile }
    ensures of_its_controller { OfItsController }
    ensures accepted { AcceptedIsRightFile }
    ensures replied { RepliedIsOutput }
    ensures converted { ConvertedIsOutput }
{
    controller_file();
    plant_texts();
    one_program();
    one_table();
    table_theorems();
    one_tree();
    right_controller();
}
