//! The lines of a text.

ghost use Rattle.std.specs.Prelude.{◌≡◌, MatchOption, position};
ghost use Rattle.std.specs.List.{list_all};
ghost use Rattle.text_lines.specs.Lines.{HasNoFeed, IsLineCut, is_clean_byte, is_feed};
ghost use Rattle.text_lines.specs.Lines.{line_content};

fn line_end(bytes: &[u8]) -> Option<usize>
    ensures { result ≡ position is_feed bytes.now }
{
    bytes.iter().position(|b| *b == b'\n')
}

/// The first line, without its line feed, and what follows it; none where there is no line feed
/// (own).
pub fn split_line(bytes: &[u8]) -> Option<(&[u8], &[u8])>
    ensures { MatchOption result (HasNoFeed bytes.now)
        (λ parts. IsLineCut bytes.now parts.0.now parts.1.now) }
{
    let end = line_end(bytes)?;
    Some((&bytes[..end], &bytes[end + 1..]))
}

/// A line without the carriage return at its end (own).
pub fn line_content(line: &[u8]) -> &[u8]
    ensures { result.now ≡ line_content line.now }
{
    match line {
        [front @ .., b'\r'] => front,
        _ => line,
    }
}

fn is_clean_code(b: u8) -> bool
    ensures { result ≡ is_clean_byte b }
{
    matches!(b, b' '..=b'~' | b'\t')
}

/// Whether each byte may stand in a line (own).
pub fn is_clean(line: &[u8]) -> bool
    ensures { result ≡ list_all is_clean_byte line.now }
{
    line.iter().all(|b| is_clean_code(*b))
}
