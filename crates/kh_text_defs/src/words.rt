//! Which words are atoms without quotes.
ghost use Rattle.std.specs.Prelude.{◌≡◌};
ghost use Rattle.std.specs.List.{list_all, list_any};
ghost use Rattle.std.specs.Str.{bytes_eq};
ghost use Rattle.kh_text_defs.specs.Atoms.{is_word_byte, is_plain_word, is_reserved, is_plain};

const RESERVED: [&[u8]; 25] = [
    b"after", b"and", b"andalso", b"band", b"begin", b"bnot", b"bor", b"bsl", b"bsr", b"bxor",
    b"case", b"catch", b"div", b"end", b"fun", b"if", b"not", b"of", b"or", b"orelse", b"receive",
    b"rem", b"try", b"when", b"xor",
];

/// Whether a byte is a letter, a digit, `_` or `@`.
pub fn is_word_byte(byte: u8) -> bool
    ensures { result ≡ is_word_byte byte }
{
    byte.is_ascii_alphanumeric() || byte == b'_' || byte == b'@'
}

fn are_word_bytes(bytes: &[u8]) -> bool
    ensures { result ≡ list_all is_word_byte bytes.now }
{
    bytes.iter().all(|byte| is_word_byte(*byte))
}

/// Whether a text has the form of an atom without quotes.
pub fn is_plain_word(text: &[u8]) -> bool
    ensures { result ≡ is_plain_word text.now }
{
    match text {
        [] => false,
        [first, rest @ ..] => first.is_ascii_lowercase() && are_word_bytes(rest),
    }
}

// Whether a text is one of these words.
fn is_among(text: &[u8], words: &[&[u8]]) -> bool
    ensures { result ≡ list_any (λ word. bytes_eq text.now word.now) words.now }
{
    words.iter().any(|word| text == *word)
}

/// Whether a word stands for no atom unless it is quoted.
pub fn is_reserved(text: &[u8]) -> bool
    ensures { result ≡ is_reserved text.now }
{
    is_among(text, &RESERVED)
}

/// Whether an atom is written without quotes.
pub fn is_plain(text: &[u8]) -> bool
    ensures { result ≡ is_plain text.now }
{
    is_plain_word(text) && !is_reserved(text)
}
