//! Words in the midst of their bytes.
ghost use Rattle.std.specs.Prelude.{◌≡◌, ◌<◌, ◌∷◌, ◌++◌, [], IsTrue, IfOk, IfErr, length};
ghost use Rattle.kh_text_defs.specs.Atoms.{is_word_byte};
ghost use Rattle.kh_read.specs.Bounds.{is_short_word};
ghost use Rattle.kh_read.specs.declared.state.Stop.TheVariants.{NoMemory};

use crate::state::Stop;
use kh_term::Atom;
use std::alloc::Global;

/// At most 255 letters, digits, `_` and `@`.
#[derive(Drop)]
pub struct Word {
    pub bytes: Vec<u8>,
    pub ghost fits: { IsTrue (is_short_word bytes.items) },
}

impl Word {
    /// A word of one letter.
    #[tactic(auto, using(crate::proofs::ShortWords::short_words))]
    pub fn begin(alloc: Global, byte: u8) -> Result<Word, Stop>
        requires { IsTrue (is_word_byte byte) }
        ensures ok { IfOk result (λ word. word.bytes.items ≡ byte ∷ []) }
        ensures err { IfErr result (λ e. e ≡ NoMemory) }
    {
        let mut bytes = Vec::new(alloc);
        bytes.push(byte)?;
        Ok(Word { bytes })
    }

    /// The word with a byte more.
    #[tactic(auto, using(crate::proofs::ShortWords::short_words))]
    pub fn grow(self, byte: u8) -> Result<Word, Stop>
        requires word_byte { IsTrue (is_word_byte byte) }
        requires room { length self.bytes.items < 255 }
        ensures ok { IfOk result (λ word. word.bytes.items ≡ self.bytes.items ++ byte ∷ []) }
        ensures err { IfErr result (λ e. e ≡ NoMemory) }
    {
        let mut bytes = self.bytes;
        bytes.push(byte)?;
        Ok(Word { bytes })
    }

    /// The atom of the word.
    #[tactic(auto, using(crate::proofs::ShortWords::short_words))]
    pub fn atom(self) -> Atom
        ensures { result ≡ self.bytes.items }
    {
        match Atom::new(self.bytes) {
            Some(name) => name,
            None => unreachable!(),
        }
    }
}
