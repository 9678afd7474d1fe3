// Two calls that are there to be counted: the values of a segment as floats and how many samples stand at the rail, by the fill, and by the
// walk, which leaves and answers the same, bit for bit. The crate measured_c exports them.
#![tactic(auto)]

ghost use Rattle.std.specs.Prelude.{◌≡◌, ◌++◌, map, ◌+◌, ◌*◌, ◌≤◌, length, drop};
ghost use Rattle.rules.specs.Numbers.{up_from};
ghost use Rattle.rules.specs.Rules.{opened};
ghost use Rattle.rules.specs.Points.{value, mark_count, walk_refusal};
ghost use Rattle.points.specs.Points.{filled_as, filled_out};
ghost use Rattle.points.specs.Walks.{place_of};
ghost use Rattle.measured.specs.Measured.{told_of};

use points::{Place, Walk};

// All M values of a segment of an array, at the start of out, by the fill; the answer has the refusal's number in its high half, and in its
// low half how many samples stand at the rail.
pub fn measured_fill(block: &[u8], array: u32, segment: u32, out: &mut [f64]) -> u64
    ensures value { result ≡ told_of (filled_as block.now array segment (length out.old)) }
    ensures out_after { out.new ≡ filled_out block.now array segment out.old }
{
    let filled = points::fill(block, array, segment, out);
    told(filled.refusal, filled.marks)
}

// The same by the walk, point by point.
pub fn measured_walk(block: &[u8], array: u32, segment: u32, out: &mut [f64]) -> u64
    ensures value { result ≡ told_of (filled_as block.now array segment (length out.old)) }
    ensures out_after { out.new ≡ filled_out block.now array segment out.old }
{
    let place = points::place_of(block, array, segment);
    if place.refusal != 0 {
        return told(place.refusal, 0);
    }
    if out.len() < place.points as usize {
        return told(13, 0);
    }
    let marks = put_points(block, array, segment, place, out);
    told(0, marks)
}

// The value of each point that a walk hands out from its first place until it is done, at the start of out; the answer is how many of them
// have the mark.
fn put_points(block: &[u8], array: u32, segment: u32, first: Place, out: &mut [f64]) -> u32
    requires first_value { first ≡ place_of block.now array segment }
    requires segment_value { walk_refusal block.now array segment ≡ 0 }
    requires points_in_bounds { first.points ≤ length out.old }
    ensures out_after { out.new ≡ map (value (opened block.now) array segment) (up_from 0 first.points) ++ drop first.points out.old }
    ensures value { result ≡ mark_count (opened block.now) array segment }
{
    let walk = Walk {
        block,
        place: first,
    };
    let mut marks = 0;
    for (k, point) in walk.enumerate() {
        out[k] = point.value;
        marks += u32::from(point.mark);
    }
    marks
}

// A refusal's number and a number of marks as one number.
fn told(refusal: u32, marks: u32) -> u64
    ensures { result ≡ refusal * 4294967296 + marks }
{
    u64::from(refusal) << 32 | u64::from(marks)
}
