//! What is wrong with a plant file, and where.

ghost use Rattle.std.specs.Prelude.{◌≡◌, ◌<◌, ◌↔◌, ℕ, List, [], ◌∷◌, ◌++◌, length, slice_index, IsTrue, IfOk, OnOk, OnErr, Ok, Err, decimal};
ghost use Rattle.mpc_plant.specs.declared.faults.PlantKind.{PlantKind as Kind};
ghost use Rattle.mpc_plant.specs.Paths.{below};

use itoa::Buffer;
use mpc_frac::NoMemory;
use std::alloc::Global;
use std::marker::Model;

/// What is wrong at a place of a plant file.
#[derive(Clone, Copy, Debug, PartialEq, Eq)]
pub enum PlantKind {
    /// The bytes are no JSON.
    NotJson,
    /// No object stands where one has to.
    NotObject,
    /// An object has a key that it can't have.
    UnknownKey,
    /// An object lacks a key.
    MissingKey,
    /// A value of another kind stands where a list, a number or an integer has to.
    WrongKind,
    /// A JSON number or a string is no number of a plant file.
    BadNumber,
    /// A list has the wrong length.
    WrongShape,
    /// A size is outside the limits.
    OverLimit,
    /// A weight isn't symmetric.
    NotSymmetric,
    /// The step of a coordinate isn't above 0.
    StepNotPositive,
    /// The version is neither 1 nor 2.
    BadVersion,
}

/// The place of a fault: a list of keys and positions from the top, each after a `/`, positions from 0.
#[derive(Drop)]
pub struct Path {
    text: Vec<u8>,
}

impl Model for Path {
    ghost use Rattle.std.specs.Prelude.{List, ℕ};

    ghost Value = { List ℕ };

    ghost view = { λ path. path.text.items };
}

impl Path {
    /// The empty path, which is that of the top. It takes no memory.
    pub fn new(alloc: Global) -> Self
        ensures { result ≡ [] }
    {
        Path {
            text: Vec::new(alloc),
        }
    }

    /// How many bytes the text has.
    pub fn len(&self) -> usize
        ensures { result ≡ length self.now }
    {
        self.text.len()
    }

    /// Whether it is the path of the top.
    pub fn is_empty(&self) -> bool
        ensures { IsTrue result ↔ (self.now ≡ []) }
    {
        self.text.is_empty()
    }

    /// The byte at this place, from 0.
    pub fn at(&self, place: usize) -> &u8
        requires { place < length self.now }
        ensures { result.now ≡ slice_index self.now place }
    {
        &self.text[place]
    }

    /// Puts one byte behind the others. Without memory the path stays as it was.
    pub fn push(&mut self, item: u8) -> Result<(), NoMemory>
        ensures ok { OnOk result (self.new ≡ self.old ++ item ∷ []) }
        ensures err { OnErr result (self.new ≡ self.old) }
    {
        if self.text.push(item).is_err() {
            return Err(NoMemory);
        }
        Ok(())
    }

    /// The text of the path.
    pub fn as_slice(&self) -> &[u8]
        ensures { result.now ≡ self.now }
    {
        self.text.as_slice()
    }

    /// The path from one level higher, below this segment.
    fn below(&self, alloc: Global, segment: &[u8]) -> Result<Path, NoMemory>
        ensures { IfOk result (λ path. path ≡ below segment.now self.now) }
    {
        let mut text = Vec::new(alloc);
        if text.push(b'/').is_err() {
            return Err(NoMemory);
        }
        if text.extend_from_slice(segment).is_err() {
            return Err(NoMemory);
        }
        if text.extend_from_slice(self.text.as_slice()).is_err() {
            return Err(NoMemory);
        }
        Ok(Path { text })
    }
}

/// Why bytes gave no plant.
#[derive(Drop)]
pub enum PlantError {
    /// A check of the plant file failed: of which kind, and where.
    Bad(PlantKind, Path),
    /// Memory ran out.
    NoMemory,
}

impl From<NoMemory> for PlantError {
    ghost use Rattle.std.specs.Prelude.{◌≡◌};
    ghost use Rattle.mpc_plant.specs.declared.faults.PlantError.TheVariants.{NoMemory as OutOfMemory};

    ghost from_gives = { λ _ e. e ≡ OutOfMemory };

    fn from(_refused: NoMemory) -> PlantError {
        PlantError::NoMemory
    }
}

impl PlantError {
    /// A fault at the value itself.
    pub(crate) fn here(alloc: Global, kind: PlantKind) -> PlantError
        ensures { result ≡ PlantError.Bad kind [] }
    {
        PlantError::Bad(kind, Path::new(alloc))
    }

    /// The fault as it is seen from one level higher. The program has this once, and not at each place that may fail.
    #[inline(never)]
    pub(crate) fn under(self, alloc: Global, segment: &[u8]) -> PlantError
        ensures { (kind : Kind) (path : List ℕ) → result ≡ PlantError.Bad kind path
            → (inner : List ℕ) × (self ≡ PlantError.Bad kind inner)
            × (path ≡ below segment.now inner) }
    {
        match self {
            PlantError::Bad(kind, path) => match path.below(alloc, segment) {
                Ok(longer) => PlantError::Bad(kind, longer),
                Err(NoMemory) => PlantError::NoMemory,
            },
            PlantError::NoMemory => PlantError::NoMemory,
        }
    }
}

/// What was found at a key, seen from the object.
pub(crate) fn under_key<T: Drop>(
    alloc: Global,
    key: &str,
    found: Result<T, PlantError>,
) -> Result<T, PlantError>
    ensures ok { IfOk result (λ v. found ≡ Ok v) }
    ensures bad { (kind : Kind) (path : List ℕ) → result ≡ Err (PlantError.Bad kind path)
        → (inner : List ℕ) × (found ≡ Err (PlantError.Bad kind inner))
        × (path ≡ below key.now inner) }
{
    match found {
        Ok(value) => Ok(value),
        Err(error) => Err(error.under(alloc, key.as_bytes())),
    }
}

/// What was found at a position, seen from the list.
pub(crate) fn under_item<T: Drop>(
    alloc: Global,
    position: usize,
    found: Result<T, PlantError>,
) -> Result<T, PlantError>
    ensures ok { IfOk result (λ v. found ≡ Ok v) }
    ensures bad { (kind : Kind) (path : List ℕ) → result ≡ Err (PlantError.Bad kind path)
        → (inner : List ℕ) × (found ≡ Err (PlantError.Bad kind inner))
        × (path ≡ below (decimal position) inner) }
{
    match found {
        Ok(value) => Ok(value),
        Err(error) => {
            let mut buffer = Buffer::new();
            Err(error.under(alloc, buffer.format(position).as_bytes()))
        }
    }
}
