//! The requests of the command line.

use tg_script::Settings;

/// The requests of the words of the command line.
#[derive(Clone, Copy, Debug, Drop)]
pub struct Options<'a> {
    pub settings: Settings,
    /// Whether each worker's lines are run on a thread of their own.
    pub race: bool,
    /// Whether the text of the history is written in the place of replies.
    pub entries: bool,
    /// Whether it is said why a line is bad.
    pub why: bool,
    /// Whether a line that is denied or refused fails the run.
    pub strict: bool,
    /// The text of the stock, as it was written.
    pub stock: &'a str,
    /// The file of the history that the run goes on from, if there is one.
    pub resume: Option<&'a str>,
    /// The file that keeps the store of the run, if there is one.
    pub keep: Option<&'a str>,
    /// What the words ask of the history, or of the file that keeps the store.
    pub asked: Asked,
}

/// The numbers that the words give, if they give them. A history from which a run goes on has to have the same numbers.
#[derive(Clone, Copy, Debug)]
pub struct Asked {
    pub workers: Option<u64>,
    pub max_vertices: Option<u64>,
}
