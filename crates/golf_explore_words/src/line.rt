//! The requests of command lines, and their limits (this runtime's rule).

ghost use Rattle.std.specs.Prelude.{◌≡◌};
ghost use Rattle.golf_explore_words.specs.Words.{states_in};

use golf_run_schedules::RunOptions;

/// The most states that a search keeps without `--states`.
pub const DEFAULT_STATES: u32 = 100_000;

/// The most states that `--states` may ask for.
pub const MOST_STATES: u32 = 1_000_000;

/// The most numbers of written choices that `trace` takes.
pub(crate) const MOST_TRACED: u32 = 100_000;

/// How many preemptions the schedules of a search have at most without `--preemptions`.
pub(crate) const DEFAULT_PREEMPTIONS: u32 = 2;

/// The most preemptions that `--preemptions` may ask for.
pub(crate) const MOST_PREEMPTIONS: u32 = 16;

/// The most seconds that `--seconds` may ask for: a day.
pub(crate) const MOST_SECONDS: u32 = 86_400;

/// What a search looks for.
#[derive(Clone, Copy, Debug, PartialEq, Eq)]
pub enum SearchFor {
    Leak,
    Panic,
    Asleep,
}

/// The options of a search.
#[derive(Clone, Copy, Debug, PartialEq, Eq)]
pub struct SearchOptions {
    pub aim: SearchFor,
    /// The most preemptions of a schedule, up to 16.
    pub preemptions: u32,
    /// The most states that the search keeps, from 1 to `MOST_STATES`.
    pub states: u32,
    /// The most seconds that the search takes, from 1 to 86,400. Without a number there is no such limit.
    pub seconds: Option<u32>,
}

/// A question about the schedules of a file.
#[derive(Clone, Copy, Debug, PartialEq, Eq)]
pub enum Question {
    /// What do all schedules come to? The search keeps at most this many states, from 1 to `MOST_STATES`.
    All(u32),
    /// Which schedule leaks, or ends so, with how few preemptions?
    Search(SearchOptions),
}

impl Question {
    /// Returns the most states that a search for the answer keeps.
    pub fn states(self) -> u32
        ensures { result ≡ states_in self }
    {
        match self {
            Question::All(most) => most,
            Question::Search(options) => options.states,
        }
    }
}

/// The request of a command line, for the file on standard input.
#[derive(Debug, Drop)]
pub enum ExploreLine {
    /// Answer this question.
    Ask(Question),
    /// Run by these options, and tell each turn.
    Trace(RunOptions),
    /// Run by this many threads, from 1 to 16, and tell each turn of the history.
    TraceThreads(u32),
}

/// The request of the words.
#[derive(Debug, Drop)]
pub enum Request {
    /// Tell the number of the release, and read no file.
    Version,
    /// Serve this command line.
    Serve(ExploreLine),
}
