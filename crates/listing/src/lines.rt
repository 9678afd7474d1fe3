// The lines of a listing, each written over a lent buffer, column by column: a loop over a list of columns is no plainer, since each kind has
// a width of its own, and `line_room` is their sum.
ghost use Rattle.std.specs.Prelude.{[], ◌∷◌, ◌+◌, ◌≤◌, ◌<◌, length};
ghost use Rattle.rules.specs.Points.{mark_number};
ghost use Rattle.digits.specs.Digits.{decimal, hex};
ghost use Rattle.listing.specs.Listing.{line, refused_line, too_long};
ghost use Rattle.copies.specs.Copies.{Wrote};
ghost use Rattle.listing.specs.Pages.{line_room};

use crate::text;

// Segment, k, value bits, time bits and the mark, from `at`; and where the line ends.
pub fn put_point(
    segment: u32,
    k: u32,
    value: u64,
    time: u64,
    mark: bool,
    out: &mut [u8],
    at: usize,
) -> usize
    requires { at + line_room ≤ length out.old }
    ensures wrote { Wrote out.old at (line (decimal segment ∷ decimal k ∷ hex value ∷ hex time ∷ decimal (mark_number mark) ∷ [])) out.new result }
    ensures lower_bound { (at < result) × (result ≤ at + line_room) }
{
    let a = text::put_decimal(segment, b' ', out, at);
    let b = text::put_decimal(k, b' ', out, a);
    let c = text::put_hex(value, b' ', out, b);
    let d = text::put_hex(time, b' ', out, c);
    text::put_mark(mark, b'\n', out, d)
}

// g, M, arrays, COMM_ORDER and COMM_TYPE at out's start; and where the line ends.
pub fn put_first(
    segments: u32,
    points: u32,
    arrays: u32,
    order: u32,
    kind: u32,
    out: &mut [u8],
) -> usize
    requires { line_room ≤ length out.old }
    ensures wrote { Wrote out.old 0 (line (decimal segments ∷ decimal points ∷ decimal arrays ∷ decimal order ∷ decimal kind ∷ [])) out.new result }
    ensures upper_bound { result ≤ line_room }
{
    let a = text::put_decimal(segments, b' ', out, 0);
    let b = text::put_decimal(points, b' ', out, a);
    let c = text::put_decimal(arrays, b' ', out, b);
    let d = text::put_decimal(order, b' ', out, c);
    text::put_decimal(kind, b'\n', out, d)
}

// `refused` and the number at out's start; and where the line ends.
pub fn put_refused(number: u32, out: &mut [u8]) -> usize
    requires { line_room ≤ length out.old }
    ensures wrote { Wrote out.old 0 (refused_line number) out.new result }
    ensures upper_bound { result ≤ line_room }
{
    copies::copy_bytes(b"refused ", 0, 8, out, 0);
    text::put_decimal(number, b'\n', out, 8)
}

// `too long` at out's start; and where the line ends.
pub fn put_too_long(out: &mut [u8]) -> usize
    requires { line_room ≤ length out.old }
    ensures wrote { Wrote out.old 0 too_long out.new result }
    ensures upper_bound { result ≤ line_room }
{
    copies::copy_bytes(b"too long\n", 0, 9, out, 0);
    9
}
