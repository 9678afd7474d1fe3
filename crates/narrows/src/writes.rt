// Writes a narrowed block, part by part: each byte once, and the changed fields over the descriptor's copy.
ghost use Rattle.std.specs.Prelude.{◌≡◌, ◌+◌, ◌*◌, ◌≤◌, length};
ghost use Rattle.rules.specs.Numbers.{splice};
ghost use Rattle.narrows.specs.Steps.{byte_block, word_block, fields_put};

// A BYTE block, its payload of `total` bytes as it is, at out's start.
pub(crate) fn write_byte(block: &[u8], start: usize, total: usize, out: &mut [u8])
    requires total_in_bounds { (start + total ≤ length block.now) × (total ≤ 16777216) }
    requires total_in_bounds_2 { 11 + total ≤ length out.old }
    ensures { out.new ≡ splice out.old 0 (byte_block block.now start total) }
{
    copies::put_header(total as u32, out);
    copies::copy_bytes(block, start, total, out, 11);
}

// A WORD block with `front` bytes before its arrays, and the lengths and the gain that it gets, at out's start. The high byte of a sample is the second of a
// pair: of the sample itself where the low byte comes first, else of the byte before it and its first.
pub(crate) fn write_word(
    block: &[u8],
    start: usize,
    order: u32,
    front: usize,
    one: usize,
    two: usize,
    gain: u32,
    out: &mut [u8],
)
    requires order_bound { (order ≤ 1) × (346 ≤ front) × (front + one + two ≤ 16777216) }
    requires two_in_bounds { start + front + (one + two) * 2 ≤ length block.now }
    requires two_in_bounds_2 { 11 + (front + one + two) ≤ length out.old }
    ensures { out.new ≡ splice out.old 0 (word_block block.now start order front one two gain) }
{
    let total = front + one + two;
    let pairs = start + front + order as usize - 1;
    copies::put_header(total as u32, out);
    copies::copy_bytes(block, start, front, out, 11);
    put_fields(order, one as u32, two as u32, gain, out);
    copies::pick_seconds(block, pairs, one + two, out, 11 + front);
}

// COMM_TYPE, WAVE_ARRAY_1, WAVE_ARRAY_2 and VERTICAL_GAIN of the descriptor behind the header.
fn put_fields(order: u32, one: u32, two: u32, gain: u32, out: &mut [u8])
    requires { 357 ≤ length out.old }
    ensures { out.new ≡ fields_put order one two gain out.old }
{
    numbers::put_u32(gain, order, out, 167);
    numbers::put_u32(two, order, out, 75);
    numbers::put_u32(one, order, out, 71);
    numbers::put_u16(0, order, out, 43);
}
