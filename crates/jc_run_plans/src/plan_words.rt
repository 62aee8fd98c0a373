//! The lines of a run plan, and their words.
ghost use Rattle.std.specs.Prelude.{◌≡◌, ◌<◌, [], ◌∷◌, length, IfSome, IfNone, MatchOption};
ghost use Rattle.std.specs.Str.Lines.{strip_carriage_return};
ghost use Rattle.jc_run_plans.specs.PlanWords.{lines_of, parts_of, with_part, words_of};
ghost use Rattle.jc_run_plans.specs.Plans.{no_words};

/// What stands in front of the first such byte, and what stands behind it where it is there.
fn cut_at(mark: u8, text: &[u8]) -> (&[u8], Option<&[u8]>)
    ensures parts { MatchOption result.1 (parts_of mark text.now ≡ result.0.now ∷ [])
        (λ rest. parts_of mark text.now ≡ result.0.now ∷ parts_of mark rest.now) }
    ensures all { IfNone result.1 (result.0.now ≡ text.now) }
    ensures shorter { IfSome result.1 (λ rest. length rest.now < length text.now) }
{
    match text.iter().position(|b| *b == mark) {
        Some(place) => (&text[..place], Some(&text[place + 1..])),
        None => (text, None),
    }
}

/// The line without a CR at its end.
fn strip_carriage_return(line: &[u8]) -> &[u8]
    ensures { result.now ≡ strip_carriage_return line.now }
{
    match line {
        [front @ .., b'\r'] => front,
        _ => line,
    }
}

/// The first line of a text, and what stands behind it.
pub fn next_line(text: &[u8]) -> Option<(&[u8], &[u8])>
    ensures lines { MatchOption result (lines_of text.now ≡ []) (λ cut. lines_of text.now ≡ cut.0.now ∷ lines_of cut.1.now) }
    ensures shorter { IfSome result (λ cut. length cut.1.now < length text.now) }
{
    if text.is_empty() {
        return None;
    }
    let (line, behind) = cut_at(b'\n', text);
    match behind {
        Some(rest) => Some((strip_carriage_return(line), rest)),
        None => Some((line, &[])),
    }
}

/// What stands in front of the first space, and what stands behind it.
fn next_part(text: &[u8]) -> (&[u8], &[u8])
    ensures words { words_of text.now ≡ with_part result.0.now (words_of result.1.now) }
    ensures shorter { 0 < length text.now → length result.1.now < length text.now }
{
    let (part, behind) = cut_at(b' ', text);
    match behind {
        Some(rest) => (part, rest),
        None => (part, &[]),
    }
}

/// The first word of a line, and what stands behind it.
pub fn next_word(line: &[u8]) -> Option<(&[u8], &[u8])>
    ensures words { MatchOption result (words_of line.now ≡ []) (λ cut. words_of line.now ≡ cut.0.now ∷ words_of cut.1.now) }
    ensures shorter { IfSome result (λ cut. length cut.1.now < length line.now) }
    ensures some { IfSome result (λ cut. 0 < length cut.0.now) }
{
    let mut rest = line;
    'parts: while !rest.is_empty() {
        let (part, after) = next_part(rest);
        if !part.is_empty() {
            return Some((part, after));
        }
        rest = after;
    }
    None
}

/// Whether the line has no word.
pub fn has_no_word(line: &[u8]) -> bool
    ensures { result ≡ no_words (words_of line.now) }
{
    next_word(line).is_none()
}
