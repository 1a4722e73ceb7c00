//! The lines of a plant.

ghost use Rattle.std.specs.Prelude.{◌≡◌, [], ◌∷◌, ◌++◌, map, All, OnOk, length, take};
ghost use Rattle.std.specs.List.{flat_map};
ghost use Rattle.mpc_frac.specs.Text.{text_of as fraction_text};
ghost use Rattle.mpc_words.specs.Words.{behind_blanks};
ghost use Rattle.mpc_grammar.specs.Lines.{matrix_line, row_line, grid_line};
ghost use Rattle.mpc_grammar.specs.PlantGrammar.{AllFit, plant as plant_of};
ghost use Rattle.mpc_writing.specs.Writing.{Prints, ended, text_of_lines, size_line, matrix_lines, drift_line, goal_line, row_lines, last_lines, plant_lines};
ghost use Rattle.mpc_grammar.specs.WrittenFits.{RowFits, AxisFits, MatricesFit, GoalFits};
ghost use Rattle.mpc_grammar.specs.declared.versions.Version.TheVariants.{Three};

use crate::words::{
    end_line, write_count, write_count_line, write_fraction, write_fractions, write_fractions_line,
    write_piece,
};
use mpc_frac::NoMemory;
use mpc_grammar::word_theorems;
use mpc_linear::Matrix;
use mpc_plant::{Coordinate, Coordinates, Plant, PlantRow, PlantRows};

/// Appends the line of the plant's sizes. Without memory some of it stands there.
fn write_size(plant: &Plant, out: &mut Vec<u8>) -> Result<(), NoMemory>
    ensures text { OnOk result (out.new.items ≡ out.old.items ++ ended (size_line plant.now)) }
    ensures kept { take (length out.old.items) out.new.items ≡ out.old.items }
{
    write_piece(b"size", out)?;
    write_count(plant.n.into(), out)?;
    write_count(plant.p.into(), out)?;
    write_count(plant.horizon.into(), out)?;
    end_line(out)
}

/// Appends the entries of the matrix row by row, each behind a blank. Without memory some of them stand
/// there.
fn write_entries(matrix: &Matrix, out: &mut Vec<u8>) -> Result<(), NoMemory>
    ensures text { OnOk result (out.new.items ≡ out.old.items
        ++ behind_blanks (map fraction_text (flat_map (λ row. row) matrix.now.rows))) }
    ensures fits { OnOk result (All AllFit matrix.now.rows) }
    ensures kept { take (length out.old.items) out.new.items ≡ out.old.items }
{
    for i in 0..matrix.rows() {
        write_fractions(matrix.row(i), out)?;
    }
    Ok(())
}

/// Appends the line of the matrix. Without memory some of it stands there.
fn write_matrix(first: &[u8], matrix: &Matrix, out: &mut Vec<u8>) -> Result<(), NoMemory>
    ensures text { OnOk result (out.new.items ≡ out.old.items ++ ended (matrix_line first.now matrix.now)) }
    ensures fits { OnOk result (All AllFit matrix.now.rows) }
    ensures kept { take (length out.old.items) out.new.items ≡ out.old.items }
{
    write_piece(first, out)?;
    write_entries(matrix, out)?;
    end_line(out)
}

/// Appends the lines of the plant's five matrices. Without memory some of them stand there.
fn write_matrices(plant: &Plant, out: &mut Vec<u8>) -> Result<(), NoMemory>
    ensures text { OnOk result (out.new.items ≡ out.old.items ++ text_of_lines (matrix_lines plant.now)) }
    ensures fits { OnOk result (MatricesFit plant.now) }
    ensures kept { take (length out.old.items) out.new.items ≡ out.old.items }
{
    write_matrix(b"A", &plant.a, out)?;
    write_matrix(b"B", &plant.b, out)?;
    write_matrix(b"Q", &plant.q, out)?;
    write_matrix(b"R", &plant.r, out)?;
    write_matrix(b"P", &plant.last, out)
}

/// Appends the line of the drift. Without memory some of it stands there.
fn write_drift(plant: &Plant, out: &mut Vec<u8>) -> Result<(), NoMemory>
    ensures text { OnOk result (out.new.items ≡ out.old.items ++ ended (drift_line plant.now)) }
    ensures fits { OnOk result (AllFit plant.now.drift) }
    ensures kept { take (length out.old.items) out.new.items ≡ out.old.items }
{
    write_fractions_line(b"drift", plant.drift.as_slice(), out)
}

/// Appends the line of the targets, that of the state first. Without memory some of it stands there.
fn write_goal(plant: &Plant, out: &mut Vec<u8>) -> Result<(), NoMemory>
    ensures text { OnOk result (out.new.items ≡ out.old.items ++ ended (goal_line plant.now)) }
    ensures fits { OnOk result (GoalFits plant.now) }
    ensures kept { take (length out.old.items) out.new.items ≡ out.old.items }
{
    write_piece(b"goal", out)?;
    write_fractions(plant.xgoal.as_slice(), out)?;
    write_fractions(plant.ugoal.as_slice(), out)?;
    end_line(out)
}

/// Appends the coefficients of a row on states and inputs and its bound, each behind a blank. Without memory
/// some of them stand there.
fn write_sides(row: &PlantRow, out: &mut Vec<u8>) -> Result<(), NoMemory>
    ensures text { OnOk result (out.new.items ≡ out.old.items
        ++ behind_blanks (map fraction_text (row.now.x ++ row.now.u ++ row.now.max ∷ []))) }
    ensures fits { OnOk result (RowFits row.now) }
    ensures kept { take (length out.old.items) out.new.items ≡ out.old.items }
{
    write_fractions(row.x.as_slice(), out)?;
    write_fractions(row.u.as_slice(), out)?;
    write_fraction(&row.max, out)
}

/// Appends the line of a row behind its name. Without memory some of it stands there.
fn write_row(name: &[u8], row: &PlantRow, out: &mut Vec<u8>) -> Result<(), NoMemory>
    ensures text { OnOk result (out.new.items ≡ out.old.items ++ ended (row_line name.now row.now)) }
    ensures fits { OnOk result (RowFits row.now) }
    ensures kept { take (length out.old.items) out.new.items ≡ out.old.items }
{
    write_piece(name, out)?;
    write_sides(row, out)?;
    end_line(out)
}

/// Appends the lines of the rows that hold before the end. Without memory some of them stand there.
fn write_rows(rows: &PlantRows, out: &mut Vec<u8>) -> Result<(), NoMemory>
    ensures text { OnOk result (out.new.items ≡ out.old.items ++ text_of_lines (row_lines rows.now)) }
    ensures fits { OnOk result (All RowFits rows.now) }
    ensures kept { take (length out.old.items) out.new.items ≡ out.old.items }
{
    write_count_line(b"rows", rows.len() as u64, out)?;
    for i in 0..rows.len() {
        write_row(b"row", rows.at(i), out)?;
    }
    Ok(())
}

/// Appends the lines of the rows that hold at the end. Without memory some of them stand there.
fn write_terminal(rows: &PlantRows, out: &mut Vec<u8>) -> Result<(), NoMemory>
    ensures text { OnOk result (out.new.items ≡ out.old.items ++ text_of_lines (last_lines rows.now)) }
    ensures fits { OnOk result (All RowFits rows.now) }
    ensures kept { take (length out.old.items) out.new.items ≡ out.old.items }
{
    write_count_line(b"terminal", rows.len() as u64, out)?;
    for i in 0..rows.len() {
        write_row(b"last", rows.at(i), out)?;
    }
    Ok(())
}

/// Appends the line of a coordinate. Without memory some of it stands there.
fn write_coordinate(axis: &Coordinate, out: &mut Vec<u8>) -> Result<(), NoMemory>
    ensures text { OnOk result (out.new.items ≡ out.old.items ++ ended (grid_line axis.now)) }
    ensures fits { OnOk result (AxisFits axis.now) }
    ensures kept { take (length out.old.items) out.new.items ≡ out.old.items }
{
    write_piece(b"grid", out)?;
    write_fraction(&axis.low, out)?;
    write_fraction(&axis.step, out)?;
    write_count(axis.count, out)?;
    end_line(out)
}

/// Appends the lines of the grid's coordinates. Without memory some of them stand there.
fn write_grid(grid: &Coordinates, out: &mut Vec<u8>) -> Result<(), NoMemory>
    ensures text { OnOk result (out.new.items ≡ out.old.items ++ text_of_lines (map grid_line grid.now)) }
    ensures fits { OnOk result (All AxisFits grid.now) }
    ensures kept { take (length out.old.items) out.new.items ≡ out.old.items }
{
    for i in 0..grid.len() {
        write_coordinate(grid.at(i), out)?;
    }
    Ok(())
}

/// Appends the lines of the plant. Without memory some of them stand there.
pub fn write_plant(plant: &Plant, out: &mut Vec<u8>) -> Result<(), NoMemory>
    ensures text { OnOk result (out.new.items ≡ out.old.items ++ text_of_lines (plant_lines plant.now)) }
    ensures prints { OnOk result (Prints (plant_of Three) plant.now (text_of_lines (plant_lines plant.now))) }
    ensures kept { take (length out.old.items) out.new.items ≡ out.old.items }
{
    word_theorems();
    write_size(plant, out)?;
    write_matrices(plant, out)?;
    write_drift(plant, out)?;
    write_goal(plant, out)?;
    write_rows(&plant.rows, out)?;
    write_terminal(&plant.terminal, out)?;
    write_grid(&plant.grid, out)
}
