//! The words of the command line, read by hand.
ghost use Rattle.std.specs.Prelude.{◌≡◌, map, string_bytes};
ghost use Rattle.std.specs.Option.{option_copied};
ghost use Rattle.tb_top.specs.Words.{file_of, is_option};

/// Whether a word is an option: it begins with `-`, and is not `-` alone.
fn begins_as_option(word: &[u8]) -> bool
    ensures { result ≡ is_option word.now }
{
    match word {
        [first, _, ..] => *first == b'-',
        _ => false,
    }
}

/// The file that the words name, if they are one word and no option.
pub fn file_word(words: &[String]) -> Option<&str>
    ensures { option_copied result ≡ file_of (map string_bytes words.now) }
{
    match words {
        [word] if !begins_as_option(word.as_bytes()) => Some(word.as_str()),
        _ => None,
    }
}
