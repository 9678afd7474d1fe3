// A walk over a segment with the times and the marks of its points: all its steps, and the step after any number of them.
ghost use Rattle.std.specs.Prelude.{◌≡◌, [], ◌∷◌, ◌++◌, map, ◌≤◌, length, drop};
ghost use Rattle.rules.specs.Numbers.{up_from};
ghost use Rattle.rules.specs.Rules.{opened};
ghost use Rattle.rules.specs.Points.{value, time, mark_number, walk_refusal};
ghost use Rattle.points.specs.Walks.{place_of, step_at, moved_to, values_of, marks_of};
ghost use Rattle.compared.specs.Tested.{copied, mark_byte, steps_number, values_left, times_left, marks_left};

use points::{Place, Walk};

// The value, the time and the mark of each point that a walk hands out until it is done, at the start of values, of times and of marks.
pub fn compared_steps(
    block: &[u8],
    array: u32,
    segment: u32,
    values: &mut [f64],
    times: &mut [f64],
    marks: &mut [u8],
) -> u32
    ensures value { result ≡ steps_number block.now array segment values.old times.old marks.old }
    ensures values_after { values.new ≡ values_left block.now array segment values.old times.old marks.old }
    ensures times_after { times.new ≡ times_left block.now array segment values.old times.old marks.old }
    ensures marks_after { marks.new ≡ marks_left block.now array segment values.old times.old marks.old }
{
    let place = points::place_of(block, array, segment);
    if place.refusal != 0 {
        return place.refusal;
    }
    let room = values.len().min(times.len()).min(marks.len());
    if room < place.points as usize {
        return 13;
    }
    put_steps(block, array, segment, place, values, times, marks);
    0
}

// What the step after the first k hands out, and how many numbers that is: a value and a time to out, and a mark to mark, or none. A slice
// that is shorter holds what it held.
pub fn compared_step(
    block: &[u8],
    array: u32,
    segment: u32,
    k: u32,
    out: &mut [f64],
    mark: &mut [u8],
) -> usize
    ensures value { result ≡ length (values_of (step_at block.now (moved_to k (place_of block.now array segment)))) }
    ensures out_after { out.new ≡ copied (values_of (step_at block.now (moved_to k (place_of block.now array segment)))) out.old }
    ensures mark_after { mark.new ≡ copied (map mark_number (marks_of (step_at block.now (moved_to k (place_of block.now array segment))))) mark.old }
{
    match points::walked(block, array, segment, k) {
        Some(point) => {
            put_two(point.value, point.time, out);
            put_mark(point.mark, mark);
            2
        }
        None => 0,
    }
}

// Each step of a walk from its first place until it is done.
fn put_steps(
    block: &[u8],
    array: u32,
    segment: u32,
    first: Place,
    values: &mut [f64],
    times: &mut [f64],
    marks: &mut [u8],
)
    requires first_value { first ≡ place_of block.now array segment }
    requires segment_value { walk_refusal block.now array segment ≡ 0 }
    requires points_in_bounds { (first.points ≤ length values.old) × (first.points ≤ length times.old) × (first.points ≤ length marks.old) }
    ensures values_after { values.new ≡ map (value (opened block.now) array segment) (up_from 0 first.points) ++ drop first.points values.old }
    ensures times_after { times.new ≡ map (time (opened block.now) segment) (up_from 0 first.points) ++ drop first.points times.old }
    ensures marks_after { marks.new ≡ map (mark_byte (opened block.now) array segment) (up_from 0 first.points) ++ drop first.points marks.old }
{
    let walk = Walk {
        block,
        place: first,
    };
    for (k, point) in walk.enumerate() {
        values[k] = point.value;
        times[k] = point.time;
        marks[k] = u8::from(point.mark);
    }
}

// Two floats at the start of out, where it has room for both.
fn put_two(a: f64, b: f64, out: &mut [f64])
    ensures { out.new ≡ copied (a ∷ b ∷ []) out.old }
{
    if let Some(start) = out.first_chunk_mut() {
        *start = [a, b];
    }
}

// A mark at the start of out, where it has room for it.
fn put_mark(mark: bool, out: &mut [u8])
    ensures { out.new ≡ copied (mark_number mark ∷ []) out.old }
{
    if let Some(first) = out.first_mut() {
        *first = u8::from(mark);
    }
}
