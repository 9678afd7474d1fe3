// The archive for a host in C: each call of include/tessarquin.h under its name, which is that call of the library with its clauses.
#![tactic(auto)]

ghost use Rattle.std.specs.Prelude.{◌≡◌, length};
ghost use Rattle.tessarquin.specs.Calls.{setup, open_number, open_left, point_number, point_left, fill_number, fill_left, cut_number, cut_left, cut_answer_left};
ghost use Rattle.tessarquin.specs.Calls.{layout_number, layout_left, text_number, text_left, label_number, label_left, crossing_number, crossing_left};
ghost use Rattle.tessarquin.specs.Calls.{strip_number, least_left, greatest_left, strip_answer_left, combined_number, combined_left};
ghost use Rattle.tessarquin.specs.Calls.{join_number, join_left, join_answer_left, narrow_number, narrow_left, narrow_answer_left};
ghost use Rattle.tessarquin.specs.Calls.{setup_read_number, setup_read_left, setup_write_number, setup_write_left, setup_write_answer_left};

// Opens a block: g, M, arrays, COMM_ORDER and COMM_TYPE.
#[unsafe(no_mangle)]
pub extern "C" fn tessarquin_open(block: &[u8], answer: &mut [u8]) -> u32
    ensures value { result ≡ open_number block.now (length answer.old) }
    ensures answer_after { answer.new ≡ open_left block.now answer.old }
{
    tessarquin::tessarquin_open(block, answer)
}

// A point of a segment of an array: the bits of its value and of its time, and its mark.
#[unsafe(no_mangle)]
pub extern "C" fn tessarquin_point(
    block: &[u8],
    array: u32,
    segment: u32,
    point: u32,
    answer: &mut [u8],
) -> u32
    ensures value { result ≡ point_number block.now array segment point (length answer.old) }
    ensures answer_after { answer.new ≡ point_left block.now array segment point answer.old }
{
    tessarquin::tessarquin_point(block, array, segment, point, answer)
}

// All M points of a segment of an array: the bits of their values, and how many of their samples stand at the rail.
#[unsafe(no_mangle)]
pub extern "C" fn tessarquin_fill(block: &[u8], array: u32, segment: u32, answer: &mut [u8]) -> u32
    ensures value { result ≡ fill_number block.now array segment (length answer.old) }
    ensures answer_after { answer.new ≡ fill_left block.now array segment answer.old }
{
    tessarquin::tessarquin_fill(block, array, segment, answer)
}

// Cuts a block by SP, NP, FP and SN into the order asked for: the block to out, c and its length to the answer.
#[unsafe(no_mangle)]
pub extern "C" fn tessarquin_cut(
    block: &[u8],
    sp: u32,
    np: u32,
    fp: u32,
    sn: u32,
    order: u32,
    out: &mut [u8],
    answer: &mut [u8],
) -> u32
    ensures value { result ≡ cut_number block.now (setup sp np fp sn) order (length out.old) (length answer.old) }
    ensures out_after { out.new ≡ cut_left block.now (setup sp np fp sn) order out.old (length answer.old) }
    ensures answer_after { answer.new ≡ cut_answer_left block.now (setup sp np fp sn) order (length out.old) answer.old }
{
    tessarquin::tessarquin_cut(block, sp, np, fp, sn, order, out, answer)
}

// The layout of a block: where the payload starts, F, S, SEGMENT_INDEX, SUBARRAY_COUNT, the ten lengths and the ten starts in the payload.
#[unsafe(no_mangle)]
pub extern "C" fn tessarquin_layout(block: &[u8], answer: &mut [u8]) -> u32
    ensures value { result ≡ layout_number block.now (length answer.old) }
    ensures answer_after { answer.new ≡ layout_left block.now answer.old }
{
    tessarquin::tessarquin_layout(block, answer)
}

// The user text of a block: where it starts in the block, and how many bytes it has.
#[unsafe(no_mangle)]
pub extern "C" fn tessarquin_user_text(block: &[u8], answer: &mut [u8]) -> u32
    ensures value { result ≡ text_number block.now (length answer.old) }
    ensures answer_after { answer.new ≡ text_left block.now answer.old }
{
    tessarquin::tessarquin_user_text(block, answer)
}

// The label of a block: 0, where it starts in the block and its length; or where TRACE_LABEL is empty 1, 0 and the fallback's length.
#[unsafe(no_mangle)]
pub extern "C" fn tessarquin_label(block: &[u8], fallback: &[u8], answer: &mut [u8]) -> u32
    ensures value { result ≡ label_number block.now fallback.now (length answer.old) }
    ensures answer_after { answer.new ≡ label_left block.now fallback.now answer.old }
{
    tessarquin::tessarquin_label(block, fallback, answer)
}

// The first point of a segment of an array whose value is at or above a level: 1 and the point, or 0 and 0 where there is none.
#[unsafe(no_mangle)]
pub extern "C" fn tessarquin_crossing(
    block: &[u8],
    array: u32,
    segment: u32,
    level: f64,
    answer: &mut [u8],
) -> u32
    ensures value { result ≡ crossing_number block.now array segment level (length answer.old) }
    ensures answer_after { answer.new ≡ crossing_left block.now array segment level answer.old }
{
    tessarquin::tessarquin_crossing(block, array, segment, level, answer)
}

// A segment of an array in so many columns: the least sample of each to least, the greatest to greatest; the sum of all samples, how many stand at
// the rail and the first point that holds the greatest to the answer.
#[unsafe(no_mangle)]
pub extern "C" fn tessarquin_strip(
    block: &[u8],
    array: u32,
    segment: u32,
    columns: u32,
    least: &mut [u8],
    greatest: &mut [u8],
    answer: &mut [u8],
) -> u32
    ensures value { result ≡ strip_number block.now array segment columns (length least.old) (length greatest.old) (length answer.old) }
    ensures least_after { least.new ≡ least_left block.now array segment columns least.old (length greatest.old) (length answer.old) }
    ensures greatest_after { greatest.new ≡ greatest_left block.now array segment columns (length least.old) greatest.old (length answer.old) }
    ensures answer_after { answer.new ≡ strip_answer_left block.now array segment columns (length least.old) (length greatest.old) answer.old }
{
    tessarquin::tessarquin_strip(block, array, segment, columns, least, greatest, answer)
}

// The setup of the one cut for the cut a, and then the cut b of what a wrote, which answered `count` as its c: SP, NP, FP and SN.
#[unsafe(no_mangle)]
pub extern "C" fn tessarquin_combined(
    spa: u32,
    npa: u32,
    fpa: u32,
    sna: u32,
    spb: u32,
    npb: u32,
    fpb: u32,
    snb: u32,
    count: u32,
    answer: &mut [u8],
) -> u32
    ensures value { result ≡ combined_number (setup spa npa fpa sna) (setup spb npb fpb snb) count (length answer.old) }
    ensures answer_after { answer.new ≡ combined_left (setup spa npa fpa sna) (setup spb npb fpb snb) count answer.old }
{
    tessarquin::tessarquin_combined(spa, npa, fpa, sna, spb, npb, fpb, snb, count, answer)
}

// Joins blocks of one segment each, which stand back to back in any order: the block to out, how many there were and its length to the answer.
#[unsafe(no_mangle)]
pub extern "C" fn tessarquin_join(parts: &[u8], out: &mut [u8], answer: &mut [u8]) -> u32
    ensures value { result ≡ join_number parts.now (length out.old) (length answer.old) }
    ensures out_after { out.new ≡ join_left parts.now out.old (length answer.old) }
    ensures answer_after { answer.new ≡ join_answer_left parts.now (length out.old) answer.old }
{
    tessarquin::tessarquin_join(parts, out, answer)
}

// Narrows a block of words to bytes: the block to out, its length to the answer.
#[unsafe(no_mangle)]
pub extern "C" fn tessarquin_narrow(block: &[u8], out: &mut [u8], answer: &mut [u8]) -> u32
    ensures value { result ≡ narrow_number block.now (length out.old) (length answer.old) }
    ensures out_after { out.new ≡ narrow_left block.now out.old (length answer.old) }
    ensures answer_after { answer.new ≡ narrow_answer_left block.now (length out.old) answer.old }
{
    tessarquin::tessarquin_narrow(block, out, answer)
}

// Reads a setup line: SP, NP, FP and SN.
#[unsafe(no_mangle)]
pub extern "C" fn tessarquin_setup_read(line: &[u8], answer: &mut [u8]) -> u32
    ensures value { result ≡ setup_read_number line.now (length answer.old) }
    ensures answer_after { answer.new ≡ setup_read_left line.now answer.old }
{
    tessarquin::tessarquin_setup_read(line, answer)
}

// Writes the normal line of a setup: the line to out, its length to the answer.
#[unsafe(no_mangle)]
pub extern "C" fn tessarquin_setup_write(
    sp: u32,
    np: u32,
    fp: u32,
    sn: u32,
    out: &mut [u8],
    answer: &mut [u8],
) -> u32
    ensures value { result ≡ setup_write_number (setup sp np fp sn) (length out.old) (length answer.old) }
    ensures out_after { out.new ≡ setup_write_left (setup sp np fp sn) out.old (length answer.old) }
    ensures answer_after { answer.new ≡ setup_write_answer_left (setup sp np fp sn) (length out.old) answer.old }
{
    tessarquin::tessarquin_setup_write(sp, np, fp, sn, out, answer)
}
