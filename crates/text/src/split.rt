ghost use Rattle.std.specs.Prelude.{◌≡◌, ◌<◌, ◌≤◌, length, ◌==◌, count_by, position};
ghost use Rattle.text.specs.Split.{stop_byte, pieces_at, PieceAt, Ends};

use word::byte::Kind;

/// Which byte ends a piece: a word ends at a separator, a line at a line feed.
#[derive(Clone, Copy, Debug, PartialEq, Eq)]
pub enum Stop {
    AtSeparator,
    AtLineFeed,
}

/// Whether the byte ends a piece.
fn is_stop(byte: u8, stop: Stop) -> bool
    ensures { result ≡ (byte == stop_byte stop) }
{
    let kind = match stop {
        Stop::AtSeparator => Kind::Separator,
        Stop::AtLineFeed => Kind::LineFeed,
    };
    Kind::from(byte) == kind
}

/// The place of the first stop.
fn first_stop(bytes: &[u8], stop: Stop) -> Option<usize>
    ensures { result ≡ position (λ b. b == stop_byte stop) bytes.now }
{
    bytes.iter().position(|byte| is_stop(*byte, stop))
}

/// How many stops there are.
pub(crate) fn count_stops(bytes: &[u8], stop: Stop) -> usize
    ensures { result ≡ count_by (λ b. b == stop_byte stop) bytes.now }
{
    let mut count = 0;
    // Kept: a sum by hand, which the compiler turns into vector code; with `filter` and `count` a line of many words took a third longer to read.
    for byte in bytes {
        count += usize::from(is_stop(*byte, stop));
    }
    count
}

/// The place of the first stop from `start` on, or the end of the bytes.
pub(crate) fn piece_end(bytes: &[u8], start: usize, stop: Stop) -> usize
    requires { start ≤ length bytes.now }
    ensures { Ends (stop_byte stop) bytes.now start result }
{
    let rest = &bytes[start..];
    start + first_stop(rest, stop).unwrap_or(rest.len())
}

/// Where the piece `j` of the bytes begins.
pub(crate) fn piece_start(bytes: &[u8], j: usize, stop: Stop) -> usize
    requires { j < length (pieces_at stop bytes.now) }
    ensures { PieceAt stop bytes.now j result }
{
    let mut start = 0;
    for _ in 0..j {
        start = (piece_end(bytes, start, stop) + 1).min(bytes.len());
    }
    start
}
