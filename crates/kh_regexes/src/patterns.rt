//! What the store asks of an engine for regular expressions.
ghost use Rattle.std.specs.Prelude.{◌≡◌, ◌<◌, ◌≤◌, ◌-◌, ◌^◌, ◌++◌, ◌∷◌, [], ℕ, Bool, List, Option, Some, length, take, IfOk};
ghost use Rattle.kh_counts.specs.Counts.{Rose};
ghost use Rattle.kh_regexes.specs.Engine.{Stand, MatchPrepared, place_of, text_at};

use crate::PrepareError;
use kh_term::NoMemory;

/// An engine for regular expressions with a list of texts that it has prepared.
pub trait Patterns {
    /// The texts that are prepared, in the order of their places.
    ghost texts: { Self → List (List ℕ) };

    /// How often the engine has refused a text. It stands still at 2^64 - 1.
    ghost refusals: { Self → ℕ };

    /// The text that the engine refused last.
    ghost refused: { Self → Option (List ℕ) };

    /// Whether the regular expression of a text is found in a subject, anywhere in it.
    ghost search: { List ℕ → List ℕ → Bool };

    /// The number of texts.
    fn count(&self) -> u32
        ensures { result ≡ length (texts self.now) };

    /// Adds a text at the end of the list, also one that the list has. Where it is refused it is kept as the text refused last.
    fn prepare(&mut self, text: &str) -> Result<(), PrepareError>
        requires { length (texts self.old) < 2 ^ 32 - 1 }
        ensures texts { MatchPrepared result (texts self.new ≡ texts self.old ++ text.now ∷ [])
            (texts self.new ≡ texts self.old) (texts self.new ≡ texts self.old) }
        ensures refusals { MatchPrepared result (refusals self.new ≡ refusals self.old)
            (Rose (refusals self.old) (refusals self.new)) (refusals self.new ≡ refusals self.old) }
        ensures refused { MatchPrepared result (refused self.new ≡ refused self.old)
            (refused self.new ≡ Some text.now) (refused self.new ≡ refused self.old) }
        ensures never_falls { refusals self.old ≤ refusals self.new };

    /// The least place of a text, where the list has it.
    fn find(&self, text: &str) -> Option<u32>
        ensures { result ≡ place_of text.now (texts self.now) };

    /// Whether the text at this place is found in the subject.
    fn matches(&mut self, id: u32, subject: &[u8]) -> Result<bool, NoMemory>
        requires { id < length (texts self.old) }
        ensures found { IfOk result (λ found. found ≡ search (text_at (texts self.old) id) subject.now) }
        ensures engine { Stand (texts self.old, refusals self.old, refused self.old)
            (texts self.new, refusals self.new, refused self.new) };

    /// Leaves the first so many texts of the list.
    fn cut(&mut self, count: u32)
        requires { count ≤ length (texts self.old) }
        ensures texts { texts self.new ≡ take count (texts self.old) }
        ensures refusals { refusals self.new ≡ refusals self.old }
        ensures refused { refused self.new ≡ refused self.old };
}
