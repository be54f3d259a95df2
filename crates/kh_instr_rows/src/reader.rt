//! Terms, read from the text of a row.
use anyhow::{Context, Result};
use kh_term::{Atom, Term, Terms, atom, copy_of, int, list, list_with_tail, tuple};
use std::alloc::Global;

// What an open bracket or a bar has behind it so far.
#[derive(Drop)]
struct Open {
    parts: Terms,
    is_tail: bool,
}

#[derive(Drop)]
struct Reader {
    alloc: Global,
    open: Vec<Open>,
    word: String,
}

impl Reader {
    fn begin(&mut self, is_tail: bool) -> Result<()> {
        let parts = Terms::new(self.alloc);
        self.open.push(Open { parts, is_tail })?;
        Ok(())
    }

    fn put(&mut self, term: Term) -> Result<()> {
        let last = self.open.last_mut().context("a bracket too many")?;
        last.parts.push(term)?;
        Ok(())
    }

    fn end(&mut self) -> Result<Open> {
        self.end_word()?;
        self.open.pop().context("a bracket too many")
    }

    fn end_word(&mut self) -> Result<()> {
        if self.word.is_empty() {
            return Ok(());
        }
        let term = word_term(self.alloc, self.word.as_str())?;
        self.word.clear();
        self.put(term)
    }

    fn end_list(&mut self) -> Result<()> {
        let last = self.end()?;
        let term = if last.is_tail {
            let tail = copy_of(self.alloc, last.parts.get(0).context("no tail")?)?;
            list_with_tail(self.alloc, self.end()?.parts, tail)?
        } else {
            list(self.alloc, last.parts)?
        };
        self.put(term)
    }

    fn take(&mut self, character: char) -> Result<()> {
        match character {
            '{' | '[' => self.begin(false),
            '|' => {
                self.end_word()?;
                self.begin(true)
            }
            '}' => {
                let term = tuple(self.end()?.parts);
                self.put(term)
            }
            ']' => self.end_list(),
            ',' | ' ' => self.end_word(),
            _ => Ok(self.word.push(character)?),
        }
    }
}

// An integer, or an atom with quotes or without.
fn word_term(alloc: Global, word: &str) -> Result<Term> {
    if let Ok(number) = word.parse::<i128>() {
        return Ok(int(number));
    }
    let text = match word.as_bytes() {
        [b'\'', text @ .., b'\''] => text,
        text => text,
    };
    Ok(atom(Atom::new(Vec::from_slice(alloc, text)?).context("no atom")?))
}

/// The terms of a line, with blanks between them.
pub fn terms_of(alloc: Global, line: &str) -> Result<Terms> {
    let mut reader = Reader {
        alloc,
        open: Vec::new(alloc),
        word: String::new(alloc),
    };
    reader.begin(false)?;
    for character in line.chars() {
        reader.take(character)?;
    }
    Ok(reader.end()?.parts)
}
