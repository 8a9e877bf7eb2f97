ghost use Rattle.std.specs.Prelude.{◌≡◌, ◌==◌, ◌≤◌, length, take, MatchOption};
ghost use Rattle.std.specs.List.{position};
ghost use Rattle.ci_io.specs.Lines.{HasFeedAt, HasNoFeed, without_return};

/// Where a line ends whose beginning is held.
#[derive(Clone, Copy)]
pub(crate) enum LineEnd {
    /// At the line feed at this place.
    Feed(usize),
    /// At the end of the source: all that is held is the last line, or nothing.
    Source,
    /// Behind all that is held, which is more than a text may have.
    Beyond,
}

/// Where the first line feed stands, of which none stands before `from`.
pub(crate) fn find_feed(bytes: &[u8], from: usize) -> Option<usize>
    requires within { from ≤ length bytes.now }
    requires searched { HasNoFeed (take from bytes.now) }
    ensures { MatchOption result (HasNoFeed bytes.now) (HasFeedAt bytes.now) }
{
    match first_feed(&bytes[from..]) {
        Some(feed) => Some(from + feed),
        None => None,
    }
}

fn first_feed(bytes: &[u8]) -> Option<usize>
    ensures { result ≡ position (λ b. b == 10) bytes.now }
{
    bytes.iter().position(|byte| *byte == b'\n')
}

/// The line without a carriage return at its end.
pub(crate) fn trim_return(line: &[u8]) -> &[u8]
    ensures { result.now ≡ without_return line.now }
{
    match line {
        [front @ .., b'\r'] => front,
        _ => line,
    }
}
