// The words of a line, separated by spaces and tabs. A comment goes from `#` to the end of the line.
ghost use Rattle.std.specs.Prelude.{◌≡◌, true, false, MatchOption};
ghost use Rattle.script.specs.Words.{Finds, is_end as is_end_of, is_blank as is_blank_of, code_of, has_word, word_of, rest_of, same};

// A comment begins here, or the line ends.
fn is_end(byte: u8) -> bool
    ensures { result ≡ is_end_of byte }
{
    byte == b'#' || byte == b'\n'
}

// Between words.
fn is_blank(byte: u8) -> bool
    ensures { result ≡ is_blank_of byte }
{
    byte == b' ' || byte == b'\t'
}

// A line up to its comment or its end.
pub(crate) fn code(line: &[u8]) -> &[u8]
    ensures { result.now ≡ code_of line.now }
{
    let end = line.iter().position(|b| is_end(*b)).unwrap_or(line.len());
    &line[..end]
}

// The first word of a text, and what follows it.
pub(crate) fn split(text: &[u8]) -> Option<(&[u8], &[u8])>
    ensures { Finds result (has_word text.now) (λ p. (p.0.now ≡ word_of text.now) × (p.1.now ≡ rest_of text.now)) }
{
    let start = text.iter().position(|b| !is_blank(*b))?;
    let text = &text[start..];
    let end = text.iter().position(|b| is_blank(*b)).unwrap_or(text.len());
    Some(text.split_at(end))
}

// Whether a word is this one. A match on byte strings would prove their lengths alone.
pub(crate) fn is(word: &[u8], name: &[u8]) -> bool
    ensures { result ≡ same word.now name.now }
{
    word == name
}
