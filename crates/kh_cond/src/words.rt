//! The words of conditions.
ghost use Rattle.std.specs.Prelude.{◌≡◌, ◌≤◌, length};
ghost use Rattle.std.specs.List.{find};
ghost use Rattle.std.specs.Str.{bytes_eq};
ghost use Rattle.kh_cond.specs.Words.{word_of, word_text, shape_of, operator_of};
ghost use Rattle.kh_cond.specs.Forms.{operator_word};

use crate::cond::Operator;

/// The words with which the tuples of conditions begin.
#[derive(Clone, Copy, Debug, PartialEq, Eq, Drop)]
pub enum Word {
    NodeExists,
    NameMatches,
    PathMatches,
    HasPayload,
    HasData,
    HasSproc,
    DataMatches,
    PayloadVersion,
    ChildListVersion,
    ChildListLength,
    Not,
    All,
    Any,
}

/// The word of a text, where it is one.
pub fn word_of(text: &[u8]) -> Option<Word>
    ensures { result ≡ word_of text.now }
{
    let words = [
        Word::NodeExists,
        Word::NameMatches,
        Word::PathMatches,
        Word::HasPayload,
        Word::HasData,
        Word::HasSproc,
        Word::DataMatches,
        Word::PayloadVersion,
        Word::ChildListVersion,
        Word::ChildListLength,
        Word::Not,
        Word::All,
        Word::Any,
    ];
    word_among(text, words.as_slice())
}

#[tactic(auto, using(crate::proofs::Finding::find_next))]
fn word_among(text: &[u8], words: &[Word]) -> Option<Word>
    ensures { result ≡ find (λ w. bytes_eq text.now (word_text w)) words.now }
{
    for word in words {
        if text == word_text(*word).as_bytes() {
            return Some(*word);
        }
    }
    None
}

/// What a word makes of its operand.
#[derive(Clone, Copy, Debug, PartialEq, Eq, Drop)]
pub enum Shape {
    Not,
    All,
    Any,
    /// A condition on the node itself.
    Row(Word),
}

/// The shape of a word.
pub fn shape_of(word: Word) -> Shape
    ensures { result ≡ shape_of word }
{
    match word {
        Word::Not => Shape::Not,
        Word::All => Shape::All,
        Word::Any => Shape::Any,
        Word::NodeExists
        | Word::NameMatches
        | Word::PathMatches
        | Word::HasPayload
        | Word::HasData
        | Word::HasSproc
        | Word::DataMatches
        | Word::PayloadVersion
        | Word::ChildListVersion
        | Word::ChildListLength => Shape::Row(word),
    }
}

/// The text of a word.
pub fn word_text(word: Word) -> &'static str
    ensures text { result.now ≡ word_text word }
    ensures short { length result.now ≤ 255 }
{
    match word {
        Word::NodeExists => "if_node_exists",
        Word::NameMatches => "if_name_matches",
        Word::PathMatches => "if_path_matches",
        Word::HasPayload => "if_has_payload",
        Word::HasData => "if_has_data",
        Word::HasSproc => "if_has_sproc",
        Word::DataMatches => "if_data_matches",
        Word::PayloadVersion => "if_payload_version",
        Word::ChildListVersion => "if_child_list_version",
        Word::ChildListLength => "if_child_list_length",
        Word::Not => "if_not",
        Word::All => "if_all",
        Word::Any => "if_any",
    }
}

/// The operator of a text, where it is one's.
pub fn operator_of(text: &[u8]) -> Option<Operator>
    ensures { result ≡ operator_of text.now }
{
    match text {
        b"eq" => Some(Operator::Equal),
        b"ne" => Some(Operator::NotEqual),
        b"lt" => Some(Operator::Less),
        b"le" => Some(Operator::AtMost),
        b"gt" => Some(Operator::Greater),
        b"ge" => Some(Operator::AtLeast),
        _ => None,
    }
}

/// The text of an operator.
pub fn operator_word(operator: Operator) -> &'static str
    ensures text { result.now ≡ operator_word operator }
    ensures short { length result.now ≤ 255 }
{
    match operator {
        Operator::Equal => "eq",
        Operator::NotEqual => "ne",
        Operator::Less => "lt",
        Operator::AtMost => "le",
        Operator::Greater => "gt",
        Operator::AtLeast => "ge",
    }
}
