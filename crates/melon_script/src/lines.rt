//! The lines of a script.
ghost use Rattle.std.specs.Prelude.{◌≡◌, ◌<◌, ◌≢◌, ◌∷◌, ℕ, length, slice_index, MatchOption, EachIndex};
ghost use Rattle.melon_script.specs.Lines.{lines_of, without_return};

fn feed_in(bytes: &[u8]) -> Option<usize>
    ensures { MatchOption result (EachIndex bytes.now (λ k. slice_index bytes.now k ≢ 10))
        (λ at. (at < length bytes.now) × (slice_index bytes.now at ≡ 10) × ((k : ℕ) → k < at → slice_index bytes.now k ≢ 10)) }
{
    bytes.iter().position(|byte| *byte == b'\n')
}

fn without_return(line: &[u8]) -> &[u8]
    ensures { result.now ≡ without_return line.now }
{
    match line.split_last() {
        Some((last, front)) => { if *last == b'\r' { front } else { line } }
        None => line,
    }
}

/// The first line, and the bytes after it.
pub fn next_line(bytes: &[u8]) -> (&[u8], &[u8])
    requires { 0 < length bytes.now }
    ensures line { lines_of bytes.now ≡ result.0.now ∷ lines_of result.1.now }
    ensures shorter { length result.1.now < length bytes.now }
{
    match feed_in(bytes) {
        Some(at) => (without_return(&bytes[..at]), &bytes[at + 1..]),
        None => (bytes, &[]),
    }
}
