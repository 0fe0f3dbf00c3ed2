//! The text of the tour, which is made piece by piece.

use golf_base::Memory;
use std::alloc::Global;
use std::fmt::Debug;

/// The text so far. `is_whole` is false once memory was refused for a piece.
#[derive(Drop)]
pub(crate) struct Page {
    text: String,
    is_whole: bool,
}

impl Page {
    /// Returns the page without a text.
    pub(crate) fn new(alloc: Global) -> Page {
        Page {
            text: String::new(alloc),
            is_whole: true,
        }
    }

    /// Adds a piece.
    pub(crate) fn say(&mut self, piece: &str) {
        if self.text.push_str(piece).is_err() {
            self.is_whole = false;
        }
    }

    /// Adds a value, as `Debug` writes it.
    pub(crate) fn show(&mut self, value: &impl Debug) {
        let text = &mut self.text;
        if write!(text, "{value:?}").is_err() {
            self.is_whole = false;
        }
    }

    /// Adds bytes, if they are a text.
    pub(crate) fn bytes(&mut self, bytes: &[u8]) {
        self.say(str::from_utf8(bytes).unwrap_or("?"));
    }

    /// Adds `word(bytes)`.
    pub(crate) fn named(&mut self, word: &str, bytes: &[u8]) {
        self.say(word);
        self.say("(");
        self.bytes(bytes);
        self.say(")");
    }

    /// Begins a station.
    pub(crate) fn head(&mut self, station: &str) {
        self.say("# ");
        self.say(station);
        self.say("\n");
    }

    /// Begins a line of the tree: its depth, the line of the file, and a word.
    pub(crate) fn begin(&mut self, depth: u32, line: u32, word: &str) {
        for _ in 0..depth {
            self.say("  ");
        }
        self.show(&line);
        self.say(": ");
        self.say(word);
    }

    /// Returns the text, if it is whole.
    pub(crate) fn into_text(self) -> Result<String, Memory> {
        let Page { text, is_whole } = self;
        if is_whole { Ok(text) } else { Err(Memory) }
    }
}
