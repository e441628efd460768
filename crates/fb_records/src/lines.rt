//! Lines of bytes.

ghost use Rattle.std.specs.Prelude.{◌≡◌};
ghost use Rattle.fb_records.specs.Lines.{without_return};

/// A line without the carriage return at its end, if it has one there.
pub fn without_return(line: &[u8]) -> &[u8]
    ensures { result.now ≡ without_return line.now }
{
    if line.is_empty() {
        return line;
    }
    let end = line.len() - 1;
    if line[end] == b'\r' {
        &line[..end]
    } else {
        line
    }
}
