//! The words of a line, one after the other.

ghost use Rattle.std.specs.Prelude.{◌≡◌, ◌∷◌, [], MatchOption, length};
ghost use Rattle.std.specs.List.{position};
ghost use Rattle.rept_session.specs.Words.{is_blank, is_letter, is_some_part, words_in};

/// The first word of a text, and what comes after the space or tab that ends it. None exactly where
/// it has no word.
pub fn first_word(text: &[u8]) -> Option<(&[u8], &[u8])>
    ensures { MatchOption result (words_in text.now ≡ []) (λ found. words_in text.now ≡ found.0.now ∷ words_in found.1.now) }
{
    let Some(start) = first_letter(text) else {
        return None;
    };
    let rest = &text[start..];
    match first_blank(rest) {
        Some(end) => Some((&rest[..end], &rest[end + 1..])),
        None => Some((rest, b"")),
    }
}

/// How many words a text has.
pub fn count_words(text: &[u8]) -> usize
    ensures { result ≡ length (words_in text.now) }
{
    let mut rest = text;
    let mut count = 0;
    'words: while let Some((_word, after)) = first_word(rest) {
        rest = after;
        count += 1;
    }
    count
}

/// Where the first byte is that parts no words.
fn first_letter(text: &[u8]) -> Option<usize>
    ensures { result ≡ position is_letter text.now }
{
    text.iter().position(|byte| !is_blank_byte(*byte))
}

/// Where the first space or tab is.
fn first_blank(text: &[u8]) -> Option<usize>
    ensures { result ≡ position is_blank text.now }
{
    text.iter().position(|byte| is_blank_byte(*byte))
}

fn is_blank_byte(byte: u8) -> bool
    ensures { result ≡ is_blank byte }
{
    byte == b' ' || byte == b'\t'
}
