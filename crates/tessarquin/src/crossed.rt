// Where a segment first crosses a level, for a host in C.
ghost use Rattle.std.specs.Prelude.{◌≡◌, length};
ghost use Rattle.tessarquin.specs.Calls.{crossing_number, crossing_left};

// The first point of a segment of an array whose value is at or above a level: 1 and the point, or 0 and 0 where there is none.
pub fn tessarquin_crossing(
    block: &[u8],
    array: u32,
    segment: u32,
    level: f64,
    answer: &mut [u8],
) -> u32
    ensures value { result ≡ crossing_number block.now array segment level (length answer.old) }
    ensures answer_after { answer.new ≡ crossing_left block.now array segment level answer.old }
{
    let t = crossings::tell(crossings::first(block, array, segment, level));
    if t.refusal != 0 {
        return t.refusal;
    }
    if answer.len() < 16 {
        return 13;
    }
    crate::put_numbers([t.found as u64, t.point as u64], answer, 0);
    0
}
