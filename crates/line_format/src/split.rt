// Splitting of a text at a separator.
ghost use Rattle.std.specs.Option.{MatchOption};
ghost use Rattle.line_format.specs.Split.{Without, Parted};

// The texts before and after the first separator; none if there is no separator.
pub(crate) fn split_once(text: &[u8], separator: u8) -> Option<(&[u8], &[u8])>
    ensures { MatchOption result (Without separator text.now)
        (λ p. Parted separator text.now p.0.now p.1.now) }
{
    let at = text.iter().position(|byte| *byte == separator)?;
    Some((&text[..at], &text[at + 1..]))
}
