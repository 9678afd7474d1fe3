// A block narrowed to bytes, for a host in C.
ghost use Rattle.std.specs.Prelude.{◌≡◌, length};
ghost use Rattle.tessarquin.specs.Calls.{narrow_number, narrow_left, narrow_answer_left};

// Narrows a block of words to bytes: the block to out, its length to the answer.
pub fn tessarquin_narrow(block: &[u8], out: &mut [u8], answer: &mut [u8]) -> u32
    ensures value { result ≡ narrow_number block.now (length out.old) (length answer.old) }
    ensures out_after { out.new ≡ narrow_left block.now out.old (length answer.old) }
    ensures answer_after { answer.new ≡ narrow_answer_left block.now (length out.old) answer.old }
{
    if answer.len() < 8 {
        // the number of a narrowing that has nowhere to go: never 0
        return narrows::narrow(block, &mut []).refusal;
    }
    let w = narrows::narrow(block, out);
    if w.refusal != 0 {
        return w.refusal;
    }
    numbers::put_u64(w.length as u64, 0, answer, 0);
    0
}
