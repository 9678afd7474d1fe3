// Parts joined by their index, for a host in C.
ghost use Rattle.std.specs.Prelude.{◌≡◌, length};
ghost use Rattle.tessarquin.specs.Calls.{join_number, join_left, join_answer_left};

// Joins blocks of one segment each, which stand back to back in any order: the block to out, how many there were and its length to the answer.
pub fn tessarquin_join(parts: &[u8], out: &mut [u8], answer: &mut [u8]) -> u32
    ensures value { result ≡ join_number parts.now (length out.old) (length answer.old) }
    ensures out_after { out.new ≡ join_left parts.now out.old (length answer.old) }
    ensures answer_after { answer.new ≡ join_answer_left parts.now (length out.old) answer.old }
{
    if answer.len() < 16 {
        return joins::join_nowhere(parts);
    }
    let w = joins::join(parts, out);
    if w.refusal != 0 {
        return w.refusal;
    }
    crate::put_numbers([w.count as u64, w.length as u64], answer, 0);
    0
}
