// The archive of the calls for the comparison with the independent reader (compared.h): those of the library with their clauses.
#![tactic(auto)]

ghost use Rattle.std.specs.Prelude.{◌≡◌, map, length};
ghost use Rattle.rules.specs.Points.{mark_number};
ghost use Rattle.block.specs.Texts.{text_of, label_of};
ghost use Rattle.points.specs.Walks.{place_of, step_at, moved_to, values_of, marks_of};
ghost use Rattle.compared.specs.Tested.{copied, steps_number, values_left, times_left, marks_left};

// The user text of a block, at the start of out.
#[unsafe(no_mangle)]
pub extern "C" fn compared_user_text(block: &[u8], out: &mut [u8]) -> usize
    ensures value { result ≡ length (text_of block.now) }
    ensures out_after { out.new ≡ copied (text_of block.now) out.old }
{
    compared::compared_user_text(block, out)
}

// The label of a block, or the fallback, at the start of out.
#[unsafe(no_mangle)]
pub extern "C" fn compared_label<'a>(block: &'a [u8], fallback: &'a [u8], out: &mut [u8]) -> usize
    ensures value { result ≡ length (label_of block.now fallback.now) }
    ensures out_after { out.new ≡ copied (label_of block.now fallback.now) out.old }
{
    compared::compared_label(block, fallback, out)
}

// The value, the time and the mark of each point that a walk hands out until it is done, at the start of values, of times and of marks.
#[unsafe(no_mangle)]
pub extern "C" fn compared_steps(
    block: &[u8],
    array: u32,
    segment: u32,
    values: &mut [f64],
    times: &mut [f64],
    marks: &mut [u8],
) -> u32
    ensures value { result ≡ steps_number block.now array segment values.old times.old marks.old }
    ensures values_after { values.new ≡ values_left block.now array segment values.old times.old marks.old }
    ensures times_after { times.new ≡ times_left block.now array segment values.old times.old marks.old }
    ensures marks_after { marks.new ≡ marks_left block.now array segment values.old times.old marks.old }
{
    compared::compared_steps(block, array, segment, values, times, marks)
}

// What the step after the first k hands out, and how many numbers that is: a value and a time to out, and a mark to mark, or none. A slice
// that is shorter holds what it held.
#[unsafe(no_mangle)]
pub extern "C" fn compared_step(
    block: &[u8],
    array: u32,
    segment: u32,
    k: u32,
    out: &mut [f64],
    mark: &mut [u8],
) -> usize
    ensures value { result ≡ length (values_of (step_at block.now (moved_to k (place_of block.now array segment)))) }
    ensures out_after { out.new ≡ copied (values_of (step_at block.now (moved_to k (place_of block.now array segment)))) out.old }
    ensures mark_after { mark.new ≡ copied (map mark_number (marks_of (step_at block.now (moved_to k (place_of block.now array segment))))) mark.old }
{
    compared::compared_step(block, array, segment, k, out, mark)
}
