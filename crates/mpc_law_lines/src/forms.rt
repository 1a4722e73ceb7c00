//! Lists of affine forms, and their matrices.

ghost use Rattle.std.specs.Prelude.{◌≡◌, ◌+◌, ◌<◌, ◌^◌, [], ◌∷◌, ◌++◌, length, IfOk, OnOk, OnErr, All, slice_index_or};
ghost use Rattle.mpc_space.specs.Matrix.{height};
ghost use Rattle.mpc_law_lines.specs.FormLists.{matrix_with, with_filled_row};

use mpc_frac::NoMemory;
use mpc_linear::{Matrix, Vector};
use std::alloc::Global;
use std::marker::Model;

/// A list of affine forms: the coefficients of each, the constant first.
#[derive(Drop)]
pub struct Forms {
    items: Vec<Vector>,
}

impl Model for Forms {
    ghost use Rattle.std.specs.Prelude.{List};
    ghost use Rattle.mpc_exact.specs.Rational.{ℚ};

    ghost Value = { List (List ℚ) };

    ghost view = { λ forms. forms.items.items };
}

impl Forms {
    /// The empty list, which takes no memory.
    pub fn new(alloc: Global) -> Self
        ensures { result ≡ [] }
    {
        Forms {
            items: Vec::new(alloc),
        }
    }

    /// How many forms there are.
    pub fn len(&self) -> usize
        ensures { result ≡ length self.now }
    {
        self.items.len()
    }

    /// The form at this place, from 0.
    pub fn at(&self, place: usize) -> &Vector
        requires { place < length self.now }
        ensures { result.now ≡ slice_index_or self.now place [] }
    {
        &self.items[place]
    }

    /// Puts one form behind the others. Without memory the list stays as it was, and the form is given up.
    pub fn push(&mut self, item: Vector) -> Result<(), NoMemory>
        ensures ok { OnOk result (self.new ≡ self.old ++ item ∷ []) }
        ensures err { OnErr result (self.new ≡ self.old) }
    {
        if self.items.push(item).is_err() {
            return Err(NoMemory);
        }
        Ok(())
    }
}

/// Puts a form into a row of a matrix, counted from 0.
pub fn fill_row(matrix: &mut Matrix, row: u32, form: &Vector)
    requires row { row < height matrix.old }
    requires size { length form.now ≡ matrix.old.columns }
    ensures { matrix.new ≡ with_filled_row matrix.old row form.now }
{
    for column in 0..matrix.cols() {
        matrix.set(row, column, *form.at(column as usize));
    }
}

/// The matrix whose rows are these forms.
pub fn matrix_of(alloc: Global, forms: &Forms, columns: u32) -> Result<Matrix, NoMemory>
    requires few { length forms.now < 2 ^ 32 }
    requires sizes { All (λ form. length form ≡ columns) forms.now }
    ensures { IfOk result (λ m. m ≡ matrix_with forms.now columns) }
{
    let mut matrix = Matrix::zero(alloc, forms.len() as u32, columns)?;
    for place in 0..forms.len() {
        fill_row(&mut matrix, place as u32, forms.at(place));
    }
    Ok(matrix)
}
