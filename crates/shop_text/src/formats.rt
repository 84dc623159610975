// The formats of instance texts, and their words.
ghost use Rattle.std.specs.Prelude.{◌≡◌, MatchOption};
ghost use Rattle.shop_text.specs.Formats.{word_of, IsNoWord};

/// How an instance text is written. The formats differ in the grammar of a row, and in whether headers name instances.
#[derive(Clone, Copy, Debug, PartialEq, Eq)]
pub enum Format {
    /// The form of the OR-Library file `jobshop1`: a machine and a time for each machine.
    Orlib,
    /// The form that goes by Taillard's name: a matrix of times, then a matrix of machines.
    Taillard,
    /// The form of `Orlib`, with a release before the pairs of machine and time, of which each job may have 0 to 100.
    Routes,
}

/// All formats.
pub const FORMATS: [Format; 3] = [Format::Orlib, Format::Taillard, Format::Routes];

/// The words of `FORMATS`, in their order.
pub static FORMAT_WORDS: [&str; 3] = ["orlib", "taillard", "routes"];

impl Format {
    /// Returns the word for the format on a command line.
    pub fn word(self) -> &'static str
        ensures { result.now ≡ word_of self }
    {
        FORMAT_WORDS[self as usize]
    }

    /// Finds the format whose word is `word`; `None` if there is none.
    pub fn of_word(word: &str) -> Option<Format>
        ensures { MatchOption result (IsNoWord word.now) (λ format. word_of format ≡ word.now) }
    {
        for format in FORMATS {
            if format.word() == word {
                return Some(format);
            }
        }
        None
    }
}
