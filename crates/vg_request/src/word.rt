//! Words after a command.

ghost use Rattle.std.specs.Prelude.{◌≡◌, option_map};
ghost use Rattle.vg_request.specs.Word.{text_word, plain_word, is_plain};

fn text_word(word: &[u8]) -> Option<&str>
    ensures { option_map (λ text. text.now) result ≡ text_word word.now }
{
    match std::str::from_utf8(word) {
        Ok(text) => Some(text),
        Err(_) => None,
    }
}

/// A word that is no option, or the value of one: text that does not begin with `-`.
pub(crate) fn plain_word(word: &[u8]) -> Option<&str>
    ensures { option_map (λ text. text.now) result ≡ plain_word word.now }
{
    match word {
        [b'-', ..] => None,
        _ => text_word(word),
    }
}

/// Whether a word is text that does not begin with `-`.
pub(crate) fn is_plain(word: &[u8]) -> bool
    ensures { result ≡ is_plain word.now }
{
    match plain_word(word) {
        Some(_) => true,
        None => false,
    }
}
