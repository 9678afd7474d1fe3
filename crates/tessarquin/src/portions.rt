// The three calls for a host in C that say where parts of a block stand: the layout, the user text and the label.
ghost use Rattle.std.specs.Prelude.{◌≡◌, ◌∷◌, ◌++◌, ◌+◌, ◌≤◌, length};
ghost use Rattle.rules.specs.Numbers.{all_bytes, splice};
ghost use Rattle.tessarquin.specs.Calls.{layout_number, layout_left, text_number, text_left, label_number, label_left};

use block::Opened;

// The layout of a block: where the payload starts, F, S, SEGMENT_INDEX, SUBARRAY_COUNT, the ten lengths and the ten starts in the payload.
pub fn tessarquin_layout(block: &[u8], answer: &mut [u8]) -> u32
    ensures value { result ≡ layout_number block.now (length answer.old) }
    ensures answer_after { answer.new ≡ layout_left block.now answer.old }
{
    let o = block::open(block);
    if o.refusal != 0 {
        return o.refusal;
    }
    if answer.len() < 200 {
        return 13;
    }
    put_layout(o, answer);
    0
}

// The user text of a block: where it starts in the block, and how many bytes it has.
pub fn tessarquin_user_text(block: &[u8], answer: &mut [u8]) -> u32
    ensures value { result ≡ text_number block.now (length answer.old) }
    ensures answer_after { answer.new ≡ text_left block.now answer.old }
{
    let o = block::open(block);
    if o.refusal != 0 {
        return o.refusal;
    }
    if answer.len() < 16 {
        return 13;
    }
    let s = block::text_span(block, o);
    crate::put_numbers([s.from as u64, (s.to - s.from) as u64], answer, 0);
    0
}

// The label of a block: 0, where it starts in the block and its length; or where TRACE_LABEL is empty 1, 0 and the fallback's length.
pub fn tessarquin_label(block: &[u8], fallback: &[u8], answer: &mut [u8]) -> u32
    ensures value { result ≡ label_number block.now fallback.now (length answer.old) }
    ensures answer_after { answer.new ≡ label_left block.now fallback.now answer.old }
{
    let o = block::open(block);
    if o.refusal != 0 {
        return o.refusal;
    }
    if answer.len() < 24 {
        return 13;
    }
    let s = block::label_span(block, o);
    if s.from == s.to {
        crate::put_numbers([1, 0, fallback.len() as u64], answer, 0);
        return 0;
    }
    crate::put_numbers([0, s.from as u64, (s.to - s.from) as u64], answer, 0);
    0
}

// The 25 numbers of an opened block's layout, at the start of out.
fn put_layout(o: Opened, out: &mut [u8])
    requires in_bounds { 200 ≤ length out.old }
    requires lengths_len { length o.layout.lengths ≡ 10 }
    ensures { out.new ≡ splice out.old 0 (all_bytes 0 8 (o.start ∷ o.first ∷ o.sparsing ∷ o.index ∷ o.subarrays ∷ o.layout.lengths ++ o.layout.starts)) }
{
    let l = o.layout;
    let lengths = l.lengths;
    let starts = l.starts;
    let five = [
        o.start as u64,
        o.first as u64,
        o.sparsing as u64,
        o.index as u64,
        o.subarrays as u64,
    ];
    crate::put_numbers(five, out, 0);
    put_ten(lengths, out, 40);
    put_ten(starts, out, 120);
}

// Ten numbers of eight bytes from `at`, the high byte first.
// They are held in four bytes each: for `put_numbers` they would be copied to eight bytes each first.
fn put_ten(ten: [u32; 10], out: &mut [u8], at: usize)
    requires { at + 80 ≤ length out.old }
    ensures { out.new ≡ splice out.old at (all_bytes 0 8 ten) }
{
    for i in 0..10 {
        numbers::put_u64(ten[i] as u64, 0, out, at + i * 8);
    }
}
