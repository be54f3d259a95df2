//! Preparing texts.
ghost use Rattle.std.specs.Prelude.{◌≡◌, ◌<◌, ◌≤◌, ◌+◌, ◌-◌, ◌^◌, ◌++◌, Some, false, length};
ghost use Rattle.kh_counts.specs.Counts.{Rose};
ghost use Rattle.kh_regexes.specs.Engine.{MatchPrepared};
ghost use Rattle.kh_cond.specs.Texts.{added, IsNewAmong, is_known, with_text};

use kh_regexes::{Patterns, PrepareError};
use kh_term::{Text, Texts};

/// Prepares texts: the list gains, in their order and each once, those that it hasn't. Where one is refused, or memory runs out, the
/// list is as it was.
#[tactic(auto, using(crate::proofs::Known::preparing))]
pub fn prepare<P: Patterns>(texts: &Texts, patterns: &mut P) -> Result<(), PrepareError>
    requires { length (P.texts patterns.old) + length texts.now < 2 ^ 32 }
    ensures texts { MatchPrepared result
        (P.texts patterns.new ≡ P.texts patterns.old ++ added (P.texts patterns.old) texts.now)
        (P.texts patterns.new ≡ P.texts patterns.old)
        (P.texts patterns.new ≡ P.texts patterns.old) }
    ensures refusals { MatchPrepared result (P.refusals patterns.new ≡ P.refusals patterns.old)
        (Rose (P.refusals patterns.old) (P.refusals patterns.new))
        (P.refusals patterns.new ≡ P.refusals patterns.old) }
    ensures refused { MatchPrepared result (P.refused patterns.new ≡ P.refused patterns.old)
        (IsNewAmong (P.texts patterns.old) texts.now (P.refused patterns.new))
        (P.refused patterns.new ≡ P.refused patterns.old) }
    ensures never_falls { P.refusals patterns.old ≤ P.refusals patterns.new }
{
    let count = patterns.count();
    for text in texts.as_slice() {
        match prepare_one(text, patterns) {
            Ok(()) => {}
            Err(PrepareError::Refused) => {
                patterns.cut(count);
                return Err(PrepareError::Refused);
            }
            Err(PrepareError::NoMemory) => {
                patterns.cut(count);
                return Err(PrepareError::NoMemory);
            }
        }
    }
    Ok(())
}

// Prepares a text that the list hasn't.
#[tactic(auto, using(crate::proofs::Known::known))]
fn prepare_one<P: Patterns>(text: &Text, patterns: &mut P) -> Result<(), PrepareError>
    requires { length (P.texts patterns.old) < 2 ^ 32 - 1 }
    ensures texts { MatchPrepared result
        (P.texts patterns.new ≡ with_text (P.texts patterns.old) text.now)
        (P.texts patterns.new ≡ P.texts patterns.old)
        (P.texts patterns.new ≡ P.texts patterns.old) }
    ensures refusals { MatchPrepared result (P.refusals patterns.new ≡ P.refusals patterns.old)
        (Rose (P.refusals patterns.old) (P.refusals patterns.new))
        (P.refusals patterns.new ≡ P.refusals patterns.old) }
    ensures refused { MatchPrepared result (P.refused patterns.new ≡ P.refused patterns.old)
        (P.refused patterns.new ≡ Some text.now) (P.refused patterns.new ≡ P.refused patterns.old) }
    ensures unknown { MatchPrepared result (Unit {0})
        (is_known (P.texts patterns.old) text.now ≡ false) (Unit {0}) }
    ensures never_falls { P.refusals patterns.old ≤ P.refusals patterns.new }
{
    match patterns.find(text.as_str()) {
        Some(_) => Ok(()),
        None => patterns.prepare(text.as_str()),
    }
}
