//! The limits of a script.

ghost use Rattle.std.specs.Prelude.{◌≡◌, ◌≤◌, length};
ghost use Rattle.fsa_top.specs.Limits.{client_lines, is_client_line, limit_of, line_feeds, most_script_bytes};

/// The most bytes of a script.
pub const MOST_SCRIPT_BYTES: usize = 16_777_216;

/// The most line feeds of a script.
pub const MOST_LINE_FEEDS: usize = 40_000;

/// The most lines of a script that begin with `client `.
pub const MOST_CLIENT_LINES: usize = 64;

/// A limit of a script.
#[derive(Clone, Copy)]
pub enum Limit {
    /// On its bytes.
    Bytes,
    /// On its line feeds.
    Lines,
    /// On its lines that begin with `client `.
    Clients,
}

// How many line feeds there are.
fn line_feeds(bytes: &[u8]) -> usize
    ensures { result ≡ line_feeds bytes.now }
{
    bytes.iter().filter(|byte| **byte == b'\n').count()
}

// Whether a line begins as those of clients do.
fn is_client_line(line: &[u8]) -> bool
    ensures { result ≡ is_client_line line.now }
{
    line.starts_with(b"client ")
}

// How many lines begin so; what follows the last line feed is a line too.
fn client_lines(bytes: &[u8]) -> usize
    ensures { result ≡ client_lines bytes.now }
{
    bytes
        .split(|byte| *byte == b'\n')
        .filter(|line| is_client_line(line))
        .count()
}

/// The first limit that these bytes pass, of lines and then of clients. It takes time linear in the
/// bytes, and no memory.
#[tactic(auto, unfolding(crate::specs::Limits::limit_of))]
pub fn limit_of(bytes: &[u8]) -> Option<Limit>
    requires within { length bytes.now ≤ most_script_bytes }
    ensures { result ≡ limit_of bytes.now }
{
    if line_feeds(bytes) > MOST_LINE_FEEDS {
        return Some(Limit::Lines);
    }
    if client_lines(bytes) > MOST_CLIENT_LINES {
        return Some(Limit::Clients);
    }
    None
}
