//! Where the next line of some bytes ends.

ghost use Rattle.std.specs.Prelude.{◌≡◌, ◌+◌, ◌<◌, ◌≤◌, length, take, true};
ghost use Rattle.std.specs.List.{position};
ghost use Rattle.std.specs.Io.BufRead.{strip_last};
ghost use Rattle.byte_streams.specs.Cutting as spec;
ghost use Rattle.byte_streams.specs.Cutting.{IsPiece, most_bytes, is_newline, has_newline, line_width, carriage_return};

/// How many bytes a script may have.
pub const MOST_BYTES: u64 = 16777216;

/// How many bytes a line may have without its newline.
pub const MOST_IN_LINE: usize = 65536;

/// What can be told of the bytes of a script that were read so far.
#[derive(Clone, Copy, PartialEq, Eq)]
pub enum Piece {
    /// More bytes are wanted.
    Open,
    End,
    TooLong,
    /// A line of this length, which takes so many bytes with its end.
    Line(usize, usize),
}

/// The place of the first newline.
fn newline_place(bytes: &[u8]) -> Option<usize>
    ensures { result ≡ position is_newline bytes.now }
{
    bytes.iter().position(|byte| *byte == b'\n')
}

/// The length of a line without a carriage return at its end.
fn without_return(line: &[u8]) -> usize
    ensures within { result ≤ length line.now }
    ensures front { take result line.now ≡ strip_last carriage_return line.now }
{
    match line.last() {
        Some(b'\r') => line.len() - 1,
        _ => line.len(),
    }
}

/// What can be told of pending bytes: so many were taken before them.
pub fn next_piece(bytes: &[u8], taken: u64, ended: bool) -> Piece
    requires { taken ≤ most_bytes }
    ensures { IsPiece bytes.now taken ended result }
{
    match newline_place(bytes) {
        Some(place) => whole_piece(bytes, taken, ended, place),
        None => last_piece(bytes, taken, ended),
    }
}

/// The line before the first newline.
fn whole_piece(bytes: &[u8], taken: u64, ended: bool, place: usize) -> Piece
    requires few { taken ≤ most_bytes }
    requires within { place < length bytes.now }
    requires first { place ≡ line_width bytes.now }
    ensures { IsPiece bytes.now taken ended result }
{
    if passes_limit(place, taken, place + 1) {
        return Piece::TooLong;
    }
    Piece::Line(without_return(&bytes[..place]), place + 1)
}

/// Bytes without a newline.
fn last_piece(bytes: &[u8], taken: u64, ended: bool) -> Piece
    requires few { taken ≤ most_bytes }
    requires bare { length bytes.now ≤ line_width bytes.now }
    ensures { IsPiece bytes.now taken ended result }
{
    if passes_limit(bytes.len(), taken, bytes.len()) {
        return Piece::TooLong;
    }
    if !ended {
        return Piece::Open;
    }
    if bytes.is_empty() {
        return Piece::End;
    }
    Piece::Line(bytes.len(), bytes.len())
}

/// Whether a line of this width, which takes so many bytes with its end, passes a limit.
fn passes_limit(line: usize, taken: u64, width: usize) -> bool
    requires { taken ≤ most_bytes }
    ensures { result ≡ spec.passes_limit line (taken + width) }
{
    line > MOST_IN_LINE || width as u64 > MOST_BYTES - taken
}
