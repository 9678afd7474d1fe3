// A segment in columns, to be drawn, for a host in C.
ghost use Rattle.std.specs.Prelude.{◌≡◌, cond, ℕ, ◌/◌, ltb, length};
ghost use Rattle.tessarquin.specs.Calls.{strip_number, least_left, greatest_left, strip_answer_left};

// A segment of an array in so many columns: the least sample of each to least, the greatest to greatest; the sum of all samples, how many stand at
// the rail and the first point that holds the greatest to the answer.
pub fn tessarquin_strip(
    block: &[u8],
    array: u32,
    segment: u32,
    columns: u32,
    least: &mut [u8],
    greatest: &mut [u8],
    answer: &mut [u8],
) -> u32
    ensures value { result ≡ strip_number block.now array segment columns (length least.old) (length greatest.old) (length answer.old) }
    ensures least_after { least.new ≡ least_left block.now array segment columns least.old (length greatest.old) (length answer.old) }
    ensures greatest_after { greatest.new ≡ greatest_left block.now array segment columns (length least.old) greatest.old (length answer.old) }
    ensures answer_after { answer.new ≡ strip_answer_left block.now array segment columns (length least.old) (length greatest.old) answer.old }
{
    let o = block::open(block);
    let low = room_for(least.len(), answer.len());
    let number = strips::judged(o, array, segment, columns, low, greatest.len() / 8);
    if number != 0 {
        return number;
    }
    let d = strips::put_columns(block, o, array, segment, columns, least, greatest);
    let three = [strips::unsigned(d.sum), d.marks as u64, d.peak as u64];
    crate::put_numbers(three, answer, 0);
    0
}

// How many numbers there is room for in a slice of so many bytes: none where the answer has no room.
fn room_for(slice: usize, answer: usize) -> usize
    ensures { result ≡ cond (ltb answer 24) 0 (slice / 8) }
{
    if answer < 24 { 0 } else { slice / 8 }
}
