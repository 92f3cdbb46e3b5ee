//! The lines of a script.
ghost use Rattle.std.specs.Prelude.{◌≡◌, ◌∷◌, ◌<◌, [], IfNone, IfSome, MatchOption, length};
ghost use Rattle.mm_lang.specs.Lines.{HasNoFeed, lines_of, without_return};
ghost use Rattle.mm_session.specs.Scripts.{EndsLine};

use bstr::ByteSlice;

/// Returns the length of the first line, without its line feed, or `None` if no line feed ends it.
pub(crate) fn line_end(script: &[u8]) -> Option<usize>
    ensures { MatchOption result (HasNoFeed script.now) (EndsLine script.now) }
{
    script.find_byte(b'\n')
}

/// Returns a line without the carriage return at its end.
pub(crate) fn without_return(line: &[u8]) -> &[u8]
    ensures { result.now ≡ without_return line.now }
{
    let Some((last, front)) = line.split_last() else {
        return line;
    };
    if *last == b'\r' { front } else { line }
}

/// Returns the first line of a script, without its line feed and carriage return, and the rest of the script. Returns `None` if the script
/// has no bytes.
pub(crate) fn split_line(script: &[u8]) -> Option<(&[u8], &[u8])>
    ensures some { IfSome result (λ split. (lines_of script.now ≡ split.0.now ∷ lines_of split.1.now) × (length split.1.now < length script.now)) }
    ensures none { IfNone result (script.now ≡ []) }
{
    match line_end(script) {
        Some(end) => Some((without_return(&script[..end]), &script[end + 1..])),
        None if script.is_empty() => None,
        None => Some((without_return(script), &[])),
    }
}
