//! The lines of a text, of a file with an entry on each line.
//!
//! A line ends with LF or CR LF; the last one need not. A line that is empty or begins with `#` spells no entry.
ghost use Rattle.std.specs.Prelude.{◌≡◌, ◌==◌, ◌∷◌, ◌<◌, ◌≤◌, length};
ghost use Rattle.std.specs.List.{position_or_len};
ghost use Rattle.std.specs.Str.Lines.{strip_carriage_return};
ghost use Rattle.sig_base.specs.Lines as spec;

/// Whether the line spells no entry.
pub fn is_skipped(line: &[u8]) -> bool
    ensures { result ≡ spec.is_skipped line.now }
{
    match line {
        [] => true,
        [first, ..] => *first == b'#',
    }
}

/// Whether no octet is a control character below the space.
pub fn have_no_controls(octets: &[u8]) -> bool
    ensures { result ≡ spec.have_no_controls octets.now }
{
    octets.iter().all(|octet| *octet >= 32)
}

/// The place of the first octet that is the wanted one, or the length where there is none.
pub fn place_of(octets: &[u8], wanted: u8) -> usize
    ensures place { result ≡ position_or_len (λ octet. octet == wanted) octets.now }
    ensures within { result ≤ length octets.now }
{
    for (i, octet) in octets.iter().enumerate() {
        if *octet == wanted {
            return i;
        }
    }
    octets.len()
}

/// The line less the CR at its end.
fn strip_carriage_return(line: &[u8]) -> &[u8]
    ensures { result.now ≡ strip_carriage_return line.now }
{
    if !line.is_empty() && line[line.len() - 1] == b'\r' {
        return &line[..line.len() - 1];
    }
    line
}

/// The first line of a text that isn't empty, and what follows it.
pub fn first_line(text: &[u8]) -> (&[u8], &[u8])
    requires { 0 < length text.now }
    ensures lines { spec.lines_of text.now ≡ result.0.now ∷ spec.lines_of result.1.now }
    ensures shorter { length result.1.now < length text.now }
{
    let end = place_of(text, b'\n');
    if end == text.len() {
        return (text, &text[end..]);
    }
    (strip_carriage_return(&text[..end]), &text[end + 1..])
}
