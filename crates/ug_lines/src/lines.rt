ghost use Rattle.std.specs.Prelude.{◌≡◌, ◌==◌, ◌<◌, ◌∷◌, ◌++◌, length};
ghost use Rattle.std.specs.List.{position};
ghost use Rattle.ug_lines.specs.Lines.{pieces, content_of};

/// Returns the place of the first line feed.
pub fn line_feed(text: &[u8]) -> Option<usize>
    ensures { result ≡ position (λ b. b == 10) text.now }
{
    text.iter().position(|b| *b == b'\n')
}

/// Cuts a file behind its first line feed: the first piece and the rest.
pub fn cut(text: &[u8]) -> (&[u8], &[u8])
    requires { 0 < length text.now }
    ensures pieces { pieces text.now ≡ result.0.now ∷ pieces result.1.now }
    ensures whole { text.now ≡ result.0.now ++ result.1.now }
    ensures filled { 0 < length result.0.now }
{
    match line_feed(text) {
        Some(at) => text.split_at(at + 1),
        None => text.split_at(text.len()),
    }
}

/// A piece without its line end.
pub fn content(piece: &[u8]) -> &[u8]
    ensures { result.now ≡ content_of piece.now }
{
    match piece.strip_suffix(b"\n") {
        Some(line) => line.strip_suffix(b"\r").unwrap_or(line),
        None => piece,
    }
}
