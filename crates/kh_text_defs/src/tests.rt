// Words of the language, by hand.
use crate::{is_plain, is_plain_word, is_reserved, is_word_byte};

#[test]
fn words(rt: HostRuntime) {
    // a text, whether it has the form of a word, and whether it is reserved
    let rows: [(&[u8], bool, bool); 20] = [
        (b"a", true, false),
        (b"zZ_9@", true, false),
        (b"if", true, true),
        (b"xor", true, true),
        (b"after", true, true),
        (b"iff", true, false),
        (b"i", true, false),
        (b"if_", true, false),
        (b"maybe", true, false),
        (b"else", true, false),
        (b"", false, false),
        (b"If", false, false),
        (b"_a", false, false),
        (b"@a", false, false),
        (b"9a", false, false),
        (b"a b", false, false),
        (b"a-b", false, false),
        (b"a.", false, false),
        (b"`a", false, false),
        (b"a\xc3\xa9", false, false),
    ];
    for (text, word, reserved) in rows {
        assert_eq!(&rt; is_plain_word(text), word);
        assert_eq!(&rt; is_reserved(text), reserved);
        assert_eq!(&rt; is_plain(text), word && !reserved);
    }
}

#[test]
fn word_bytes(rt: HostRuntime) {
    for byte in b"azAZ09_@" {
        assert!(&rt; is_word_byte(*byte));
    }
    for byte in b"`{[/:?\x00-. '\x80\xff" {
        assert!(&rt; !is_word_byte(*byte));
    }
}
