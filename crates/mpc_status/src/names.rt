//! The names of what is wrong with a file.

ghost use Rattle.std.specs.Prelude.{◌≡◌, ◌++◌, OnOk};
ghost use Rattle.mpc_status.specs.StatusText.{kind_text, file_kind_text, path_text};

use mpc_file::FileKind;
use mpc_frac::NoMemory;
use mpc_plant::{Path, PlantKind};
use mpc_words::add_text;

/// The name of what is wrong with a plant's file.
pub fn kind_name(kind: PlantKind) -> &'static [u8]
    ensures { result.now ≡ kind_text kind }
{
    match kind {
        PlantKind::NotJson => b"NotJson",
        PlantKind::NotObject => b"NotObject",
        PlantKind::UnknownKey => b"UnknownKey",
        PlantKind::MissingKey => b"MissingKey",
        PlantKind::WrongKind => b"WrongKind",
        PlantKind::BadNumber => b"BadNumber",
        PlantKind::WrongShape => b"WrongShape",
        PlantKind::OverLimit => b"OverLimit",
        PlantKind::NotSymmetric => b"NotSymmetric",
        PlantKind::StepNotPositive => b"StepNotPositive",
        PlantKind::BadVersion => b"BadVersion",
    }
}

/// The name of what is wrong with a line of a controller's file.
pub fn file_kind_name(kind: FileKind) -> &'static [u8]
    ensures { result.now ≡ file_kind_text kind }
{
    match kind {
        FileKind::BadLine => b"BadLine",
        FileKind::Truncated => b"Truncated",
        FileKind::TailAfterEnd => b"TailAfterEnd",
        FileKind::BadNode => b"BadNode",
        FileKind::OverBound => b"OverBound",
    }
}

/// Puts the path with a blank before it behind the text; nothing where the path is empty.
pub fn add_path(text: &mut Vec<u8>, path: &Path) -> Result<(), NoMemory>
    ensures { OnOk result (text.new.items ≡ text.old.items ++ path_text path.now) }
{
    let place = path.as_slice();
    if place.is_empty() {
        return Ok(());
    }
    add_text(text, b" ")?;
    add_text(text, place)
}
