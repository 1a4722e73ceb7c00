//! What the command ends with.

ghost use Rattle.std.specs.Prelude.{◌≡◌, ◌++◌, IfOk, OnOk, codes, decimal};
ghost use Rattle.mpc_recur.specs.NextText.{next_text};
ghost use Rattle.mpc_rows.specs.PlaceText.{place_text};
ghost use Rattle.mpc_status.specs.LateText.{late_text};
ghost use Rattle.mpc_status.specs.SpotText.{spot_text};
ghost use Rattle.mpc_status.specs.StatusText.{line_of, code_of, kind_text, file_kind_text, path_text};

use crate::late::{LatePlace, add_late_place};
use crate::names::{add_path, file_kind_name, kind_name};
use crate::spots::add_spot;
use mpc_check::Spot;
use mpc_file::FileKind;
use mpc_frac::NoMemory;
use mpc_plant::{Path, PlantKind};
use mpc_recur::Next;
use mpc_rows::{PairPoint, Place};
use mpc_words::{add_number, add_text};
use std::alloc::Global;

/// What a command ends with.
#[derive(Drop)]
pub enum Status {
    /// The output is written.
    Done,
    /// The words are no command.
    Usage,
    /// A check of the plant's file fails: of which kind, and where.
    BadPlant(PlantKind, Path),
    /// The plant's program isn't convex: this pivot, from 1, is the first that isn't positive.
    NotDefinite(u32),
    /// A number of this run is too wide for 128 bits.
    TooWide(Place),
    /// The line with this number, from 1, is the first of a controller's file that fails, and why.
    BadFile(FileKind, u64),
    /// The first condition that a controller doesn't meet fails here.
    Refused(Spot),
    /// The source failed.
    ReadFault,
    /// The sink failed.
    WriteFault,
    /// The input has more bytes than the limit.
    TooLong,
    /// Memory ran out.
    NoMemory,
    /// This step of the closed loop leads out of the box or to a state without a move, from `q + d r` for every small enough positive d.
    Unsafe(Next, PairPoint),
    /// A number of what comes behind a controller's program is too wide for 128 bits, at this place.
    WideLater(LatePlace),
    /// What bounds the disturbances isn't there, or isn't a line of numbers.
    BadNoise,
    /// The input has more plants than may be compiled together.
    TooManyPlants,
}

/// Puts the line of a plant's file that fails behind the text.
fn add_bad_plant(text: &mut Vec<u8>, kind: PlantKind, path: &Path) -> Result<(), NoMemory>
    ensures { OnOk result (text.new.items ≡ text.old.items ++ (codes "bad plant " ++ kind_text kind ++ path_text path.now ++ codes "\n")) }
{
    add_text(text, b"bad plant ")?;
    add_text(text, kind_name(kind))?;
    add_path(text, path)?;
    add_text(text, b"\n")
}

/// Puts the line of a pivot that isn't positive behind the text.
fn add_not_definite(text: &mut Vec<u8>, pivot: u32) -> Result<(), NoMemory>
    ensures { OnOk result (text.new.items ≡ text.old.items ++ (codes "not definite " ++ decimal pivot ++ codes "\n")) }
{
    add_text(text, b"not definite ")?;
    add_number(text, u64::from(pivot))?;
    add_text(text, b"\n")
}

/// Puts the line of a place where a number is too wide behind the text.
fn add_too_wide(text: &mut Vec<u8>, place: &Place) -> Result<(), NoMemory>
    ensures { OnOk result (text.new.items ≡ text.old.items ++ (codes "too wide " ++ place_text place.now ++ codes "\n")) }
{
    add_text(text, b"too wide ")?;
    place.write(text)?;
    add_text(text, b"\n")
}

/// Puts the line of a late place where a number is too wide behind the text.
fn add_wide_later(text: &mut Vec<u8>, place: LatePlace) -> Result<(), NoMemory>
    ensures { OnOk result (text.new.items ≡ text.old.items ++ (codes "too wide " ++ late_text place ++ codes "\n")) }
{
    add_text(text, b"too wide ")?;
    add_late_place(text, place)?;
    add_text(text, b"\n")
}

/// Puts the line of a controller's file that fails behind the text.
fn add_bad_file(text: &mut Vec<u8>, kind: FileKind, number: u64) -> Result<(), NoMemory>
    ensures { OnOk result (text.new.items ≡ text.old.items
        ++ (codes "bad file " ++ file_kind_text kind ++ codes " " ++ decimal number ++ codes "\n")) }
{
    add_text(text, b"bad file ")?;
    add_text(text, file_kind_name(kind))?;
    add_text(text, b" ")?;
    add_number(text, number)?;
    add_text(text, b"\n")
}

/// Puts the line of a spot where a controller is refused behind the text.
fn add_refused(text: &mut Vec<u8>, spot: &Spot) -> Result<(), NoMemory>
    ensures { OnOk result (text.new.items ≡ text.old.items ++ (codes "refused " ++ spot_text spot.now ++ codes "\n")) }
{
    add_text(text, b"refused ")?;
    add_spot(text, spot)?;
    add_text(text, b"\n")
}

/// Puts the line of a step that isn't safe behind the text.
fn add_unsafe(text: &mut Vec<u8>, next: &Next) -> Result<(), NoMemory>
    ensures { OnOk result (text.new.items ≡ text.old.items ++ (codes "unsafe leaf " ++ next_text next.now ++ codes "\n")) }
{
    add_text(text, b"unsafe leaf ")?;
    next.write(text)?;
    add_text(text, b"\n")
}

impl Status {
    /// The exit code.
    pub fn code(&self) -> u8
        ensures { result ≡ code_of self.now }
    {
        match self {
            Status::Done => 0,
            Status::Usage => 2,
            Status::BadPlant(_, _) => 3,
            Status::NotDefinite(_) => 4,
            Status::TooWide(_) => 5,
            Status::BadFile(_, _) => 6,
            Status::Refused(_) => 7,
            Status::ReadFault => 8,
            Status::WriteFault => 9,
            Status::TooLong => 10,
            Status::NoMemory => 11,
            Status::Unsafe(_, _) => 15,
            Status::WideLater(_) => 16,
            Status::BadNoise => 17,
            Status::TooManyPlants => 18,
        }
    }

    /// Puts the line that is written at this status behind the text: nothing for [`Status::Done`], a fault or want of memory. Without memory a
    /// part of it may stand there.
    pub(crate) fn write_line(&self, text: &mut Vec<u8>) -> Result<(), NoMemory>
        ensures { OnOk result (text.new.items ≡ text.old.items ++ line_of self.now) }
    {
        match self {
            Status::Done | Status::ReadFault | Status::WriteFault | Status::NoMemory => Ok(()),
            Status::Usage => add_text(text, b"usage\n"),
            Status::BadPlant(kind, path) => add_bad_plant(text, *kind, path),
            Status::NotDefinite(pivot) => add_not_definite(text, *pivot),
            Status::TooWide(place) => add_too_wide(text, place),
            Status::BadFile(kind, number) => add_bad_file(text, *kind, *number),
            Status::Refused(spot) => add_refused(text, spot),
            Status::TooLong => add_text(text, b"too long\n"),
            Status::Unsafe(next, _) => add_unsafe(text, next),
            Status::WideLater(place) => add_wide_later(text, *place),
            Status::BadNoise => add_text(text, b"bad noise\n"),
            Status::TooManyPlants => add_text(text, b"too many plants\n"),
        }
    }

    /// The line that is written at this status.
    pub fn line(&self, alloc: Global) -> Result<Vec<u8>, NoMemory>
        ensures { IfOk result (λ line. line.items ≡ line_of self.now) }
    {
        let mut line = Vec::new(alloc);
        self.write_line(&mut line)?;
        Ok(line)
    }
}
