//! What the words of the command line ask for.

use wz_types::Text;

/// Where the module comes from.
#[derive(Drop)]
pub enum InputFrom {
    /// Standard input.
    Standard,
    /// The file at a path.
    Path(Text),
    /// The sample module of a number, at most 1,000,000.
    Sample(u32),
}

/// Where the output goes.
#[derive(Drop)]
pub enum OutputTo {
    /// Standard output.
    Standard,
    /// The file at a path.
    Path(Text),
}

/// An export of a function gets another name.
#[derive(Drop)]
pub struct Rename {
    /// The new name, behind which an earlier export of that name goes away.
    pub dst: Text,
    /// The export's name in the input.
    pub src: Text,
}

/// What a run is to do.
#[derive(Drop)]
pub struct Settings {
    pub input: InputFrom,
    pub output: OutputTo,
    /// The export that is run ahead of time.
    pub function: Text,
    /// In the order of the words.
    pub renames: Vec<Rename>,
    /// How many ticks the run may make.
    pub fuel: u64,
    /// Whether the functions that were run stay exported.
    pub keep_init: bool,
    /// Whether `_initialize` runs first.
    pub reactor: bool,
    /// Whether the run's report is printed.
    pub report: bool,
    /// Whether functions that nothing reaches lose their bodies.
    pub prune: bool,
}

/// Why words ask for nothing, by the place of the first word at fault, counted from 0.
#[derive(Clone, Copy, Debug, PartialEq, Eq)]
pub enum Usage {
    /// The option isn't known, or a flag has `=`.
    UnknownOption { at: usize },
    /// No word follows an option that takes a value.
    MissingValue { at: usize },
    /// An option other than a rename comes a second time, under either name.
    RepeatedOption { at: usize },
    /// A second input, or an input beside a sample.
    ExtraWord { at: usize },
    /// The value isn't made of decimal digits, or is above the option's limit.
    BadNumber { at: usize },
    /// The value of a rename has no `=`.
    BadRename { at: usize },
    /// The values of the renames so far have more than 1,048,576 bytes together.
    RenamesTooLong { at: usize },
    /// An earlier rename is to this name.
    RenameTwiceTo { at: usize },
    /// An earlier rename is of this export.
    RenameTwiceFrom { at: usize },
    NoMemory,
}
