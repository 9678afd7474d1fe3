// A listing page by page: its first line, then as many whole lines as fit, from one spot to the next.
ghost use Rattle.std.specs.Prelude.{◌≡◌, ◌++◌, ◌+◌, ◌≤◌, ◌<◌, length};
ghost use Rattle.rules.specs.Rules.{opened};
ghost use Rattle.listing.specs.Listing.{listing, point_line};
ghost use Rattle.copies.specs.Copies.{Wrote};
ghost use Rattle.listing.specs.Pages.{line_room, Stands, Paged, front, rest, spot_at};

use crate::lines;
use points::Place;

// The most bytes of input that are listed.
const MOST: usize = 65536;

// Room for the longest line.
const LINE_ROOM: usize = 58;

// Where a listing stands: before the point at a place of a segment, or at its end, where the place is refused.
#[derive(Clone, Copy)]
pub struct Spot {
    pub segment: u32,
    pub place: Place,
}

// So many bytes at the start of a buffer, and where the listing stands behind them.
#[derive(Clone, Copy)]
pub struct Page {
    pub spot: Spot,
    pub count: usize,
}

// The first line: `too long`, a refusal or what the block holds, at out's start; and where it ends.
pub fn put_front(block: &[u8], out: &mut [u8]) -> usize
    requires { line_room ≤ length out.old }
    ensures wrote { Wrote out.old 0 (front block.now) out.new result }
    ensures upper_bound { result ≤ line_room }
{
    if block.len() > MOST {
        return lines::put_too_long(out);
    }
    let o = block::open(block);
    if o.refusal != 0 {
        return lines::put_refused(o.refusal, out);
    }
    lines::put_first(o.segments, o.points, o.arrays, o.order, o.kind, out)
}

// The spot behind the first line.
pub fn begin(block: &[u8]) -> Spot
    ensures stands { Stands block.now result }
    ensures block_value { listing block.now ≡ front block.now ++ rest block.now result }
{
    if block.len() > MOST {
        return spot_at(block, 0);
    }
    spot_at(block, 1)
}

// The spot before a segment's first point; the end where there is no such segment.
fn spot_at(block: &[u8], segment: u32) -> Spot
    ensures { result ≡ spot_at block.now segment }
{
    Spot {
        segment,
        place: points::place_of(block, 1, segment),
    }
}

// As many whole lines as fit, at out's start, from a spot on.
pub fn put_page(block: &[u8], spot: Spot, out: &mut [u8]) -> Page
    requires stands { Stands block.now spot }
    requires line_room_in_bounds { line_room ≤ length out.old }
    ensures { Paged block.now spot out.new result }
{
    let last = out.len() - LINE_ROOM;
    let mut here = spot;
    let mut at = 0;
    while here.place.refusal == 0 && at <= last {
        at = put_line(block, here, out, at);
        here = after_line(block, here);
    }
    Page {
        spot: here,
        count: at,
    }
}

// The line of the point at a spot, from `at`; and where it ends.
fn put_line(block: &[u8], spot: Spot, out: &mut [u8], at: usize) -> usize
    requires stands { Stands block.now spot }
    requires refusal_value { spot.place.refusal ≡ 0 }
    requires line_room_in_bounds { at + line_room ≤ length out.old }
    ensures wrote { Wrote out.old at (point_line (opened block.now) spot.segment spot.place.k) out.new result }
    ensures lower_bound { (at < result) × (result ≤ at + line_room) }
{
    let place = spot.place;
    let Some(point) = points::step_at(block, place) else {
        return at;
    };
    lines::put_point(
        spot.segment,
        place.k,
        scale::bits(point.value),
        scale::bits(point.time),
        point.mark,
        out,
        at,
    )
}

// The spot behind that line: the segment's next point, or the next segment's first.
fn after_line(block: &[u8], spot: Spot) -> Spot
    requires stands { Stands block.now spot }
    requires refusal_value { spot.place.refusal ≡ 0 }
    ensures stands_2 { Stands block.now result }
    ensures spot_value { rest block.now spot ≡ point_line (opened block.now) spot.segment spot.place.k ++ rest block.now result }
{
    let place = points::after(spot.place);
    if place.k < place.points {
        return Spot { place, ..spot };
    }
    spot_at(block, spot.segment + 1)
}
