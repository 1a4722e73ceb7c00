//! The words of the command line.

ghost use Rattle.std.specs.Prelude.{◌≡◌, ◌≢◌, ℕ, ◌↔◌, [], ◌∷◌, decimal, map, string_bytes, IsTrue, MatchOption};
ghost use Rattle.mpc_cli.specs.Commands.{CommandReads, CommandWaits, IsCommand, IsFromTo, Names, workers_of};

use itoa::Buffer;

/// The most workers that a command takes.
const MOST_WORKERS: u32 = 32;

/// The last drill's number.
const LAST_DRILL: u32 = 95;

/// What is asked about a plant.
#[derive(Clone, Copy, Debug, PartialEq, Eq)]
pub enum PlantCommand {
    /// The replies to recorded states.
    Run,
    /// The file of the plant's controller, whose active sets so many workers decide.
    Compile(u32),
    /// The history in which so many workers claim and decide the plant's active sets.
    Trace(u32),
}

/// What is asked about the file of a controller.
#[derive(Clone, Copy, Debug, PartialEq, Eq)]
pub enum FileCommand {
    /// Whether the controller meets all conditions of optimality.
    Check,
    /// The controller's replies to recorded states, whether anybody has checked it or not.
    Reply,
    /// The controller's file in the newest version.
    Convert,
    /// Whether the controller meets all these conditions, and its closed loop goes on forever.
    Safe,
}

/// What is asked about recorded states of a plant of which nothing is compiled.
#[derive(Clone, Copy, Debug, PartialEq, Eq)]
pub enum StateCommand {
    /// The right replies.
    Solve,
    /// The replies that are right whatever disturbances come from a box.
    Robust,
}

/// What the words ask for.
#[derive(Clone, Copy, Debug, PartialEq, Eq)]
pub enum Command {
    /// Something of a plant.
    OfPlant(PlantCommand),
    /// Something of a controller's file.
    OfFile(FileCommand),
    /// Something of recorded states.
    OfStates(StateCommand),
    /// The counts of what is made for the plant of the drill with this number.
    Drill(u32),
    /// The files of several plants' controllers, whose active sets so many workers decide together.
    Fleet(u32),
}

impl PlantCommand {
    /// How many workers decide the plant's active sets.
    pub fn workers(self) -> u32
        ensures { result ≡ workers_of self }
    {
        match self {
            PlantCommand::Run => 1,
            PlantCommand::Compile(workers) | PlantCommand::Trace(workers) => workers,
        }
    }
}

impl Command {
    /// Whether workers wait for one another.
    pub fn waits(self) -> bool
        ensures { IsTrue result ↔ CommandWaits self }
    {
        match self {
            Command::OfPlant(command) => command.workers() > 1,
            Command::OfFile(_) | Command::OfStates(_) => false,
            Command::Drill(_) | Command::Fleet(_) => true,
        }
    }

    /// Whether there is an input.
    pub fn reads(self) -> bool
        ensures { IsTrue result ↔ CommandReads self }
    {
        match self {
            Command::OfPlant(_) | Command::OfFile(_) | Command::OfStates(_) | Command::Fleet(_) =>
                true,
            Command::Drill(_) => false,
        }
    }
}

/// The number from the first to the last that the word spells in decimal, without a leading zero.
fn number_from_to(word: &str, first: u32, last: u32) -> Option<u32>
    ensures { MatchOption result ((n : ℕ) → IsFromTo first last n → word.now ≢ decimal n)
        (λ n. IsFromTo first last n × (word.now ≡ decimal n)) }
{
    let mut buffer = Buffer::new();
    for number in first..=last {
        if buffer.format(number) == word {
            return Some(number);
        }
    }
    None
}

/// The command of one word, which has one worker.
fn one_word(name: &str) -> Option<Command>
    ensures { MatchOption result (¬ IsCommand (name.now ∷ [])) (λ c. Names c (name.now ∷ [])) }
{
    match name {
        "run" => Some(Command::OfPlant(PlantCommand::Run)),
        "compile" => Some(Command::OfPlant(PlantCommand::Compile(1))),
        "trace" => Some(Command::OfPlant(PlantCommand::Trace(1))),
        "check" => Some(Command::OfFile(FileCommand::Check)),
        "reply" => Some(Command::OfFile(FileCommand::Reply)),
        "convert" => Some(Command::OfFile(FileCommand::Convert)),
        "safe" => Some(Command::OfFile(FileCommand::Safe)),
        "fleet" => Some(Command::Fleet(1)),
        "solve" => Some(Command::OfStates(StateCommand::Solve)),
        "robust" => Some(Command::OfStates(StateCommand::Robust)),
        _ => None,
    }
}

/// The command of two words, of which the last is its number.
fn two_words(name: &str, number: &str) -> Option<Command>
    ensures { MatchOption result (¬ IsCommand (name.now ∷ number.now ∷ []))
        (λ c. Names c (name.now ∷ number.now ∷ [])) }
{
    if name != "drill" {
        return None;
    }
    let number = number_from_to(number, 0, LAST_DRILL)?;
    Some(Command::Drill(number))
}

/// The command of three words, of which the last is its number of workers.
fn three_words(name: &str, option: &str, number: &str) -> Option<Command>
    ensures { MatchOption result (¬ IsCommand (name.now ∷ option.now ∷ number.now ∷ []))
        (λ c. Names c (name.now ∷ option.now ∷ number.now ∷ [])) }
{
    if option != "--workers" {
        return None;
    }
    let workers = number_from_to(number, 1, MOST_WORKERS)?;
    match name {
        "compile" => Some(Command::OfPlant(PlantCommand::Compile(workers))),
        "trace" => Some(Command::OfPlant(PlantCommand::Trace(workers))),
        "fleet" => Some(Command::Fleet(workers)),
        _ => None,
    }
}

/// The command that the words name.
pub fn named_command(words: &[String]) -> Option<Command>
    ensures { MatchOption result (¬ IsCommand (map string_bytes words.now))
        (λ c. Names c (map string_bytes words.now)) }
{
    match words {
        [name] => one_word(name.as_str()),
        [name, number] => two_words(name.as_str(), number.as_str()),
        [name, option, number] => three_words(name.as_str(), option.as_str(), number.as_str()),
        _ => None,
    }
}
