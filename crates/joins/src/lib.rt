// Segments put where they belong: blocks of one segment each, lent back to back in any order, joined by their SEGMENT_INDEX.
#![tactic(auto)]

mod writes;

ghost use Rattle.std.specs.Prelude.{◌≡◌, ℕ, true, ◌↔◌, ◌≤◌, length, IfOk, IfErr};
ghost use Rattle.rules.specs.Rules.{refusal};
ghost use Rattle.arrivals.specs.Arrivals.{Judges};
ghost use Rattle.joining.specs.Join.{parts_in, joined_bytes, join_refusal};
ghost use Rattle.joins.specs.Joins.{refused_as, joined_as, out_as};
ghost use Rattle.joins.specs.Steps.{Counted, total_by};

use arrivals::Judged;
use fronts::Lead;

// What a join answers: 0, how many parts there were and the bytes written; or its refusal's number and zeros.
#[derive(Clone, Copy)]
pub struct Joined {
    pub refusal: u32,
    pub count: u32,
    pub length: u32,
}

// Writes the join of the parts to out's start. Refused, it writes nothing.
pub fn join(parts: &[u8], out: &mut [u8]) -> Joined
    ensures value { result ≡ joined_as parts.now (length out.old) }
    ensures out_after { out.new ≡ out_as parts.now out.old }
{
    let judged = match joinable(parts) {
        Ok(judged) => judged,
        Err(number) => return refused(number),
    };
    let end = judged.end;
    let count = judged.count;
    let lead = fronts::lead_of(&parts[0..end]);
    let total = total_of(lead, count);
    if out.len() < total + 11 {
        return refused(13);
    }
    writes::write_joined(parts, lead, count, end, total as u32, out);
    Joined {
        refusal: 0,
        count: count as u32,
        length: (total + 11) as u32,
    }
}

// The number of a join that has nowhere to go: that of `join` without any room, never 0.
pub fn join_nowhere(parts: &[u8]) -> u32
    ensures { result ≡ join_refusal parts.now 0 }
{
    match joinable(parts) {
        Ok(_) => 13,
        Err(number) => number,
    }
}

// Parts that belong together and whose joined block keeps the rules; or the number of the refusal, which is that in any room.
// In both calls it is a part of them, so that it takes no stack of its own below them.
#[inline(always)]
fn joinable(parts: &[u8]) -> Result<Judged, u32>
    ensures ok { IfOk result (λ j. Judges parts.now j × (j.refusal ≡ 0) × (refusal (joined_bytes (parts_in parts.now)) ≡ 0)) }
    ensures err { IfErr result (λ n. ¬ (n ≡ 0) × ((room : ℕ) → n ≡ join_refusal parts.now room)) }
{
    let judged = arrivals::judge(parts);
    let number = judged.refusal;
    if number != 0 {
        return Err(number);
    }
    if !is_block(parts, judged.count, judged.end) {
        return Err(16);
    }
    Ok(judged)
}

// The answer of a refused join.
fn refused(number: u32) -> Joined
    ensures { result ≡ refused_as number }
{
    Joined {
        refusal: number,
        count: 0,
        length: 0,
    }
}

// L of the joined block.
fn total_of(lead: Lead, count: usize) -> usize
    requires { count ≤ 1000 }
    ensures { result ≡ total_by lead count }
{
    let a = lead.lengths;
    let each = a[3] as usize + a[6] as usize + a[7] as usize;
    346 + a[1] as usize + a[4] as usize + count * each
}

// Whether the joined block keeps the rules: its length, RISTIME in one part alone, and trigger times that do not run backwards. All else it has from its parts.
// Kept a function of its own, so that its lengths are not on the stack while parts are opened.
#[inline(never)]
fn is_block(parts: &[u8], count: usize, end: usize) -> bool
    requires { Counted parts.now count end }
    ensures { (result ≡ true) ↔ (refusal (joined_bytes (parts_in parts.now)) ≡ 0) }
{
    let lead = fronts::lead_of(&parts[0..end]);
    if 16777216 < total_of(lead, count) {
        return false;
    }
    if count < 2 {
        return true;
    }
    let lengths = lead.lengths;
    if 0 < lengths[4] {
        return false;
    }
    if lengths[3] < 1 {
        return true;
    }
    let trig = lengths[0] as usize + lengths[1] as usize + lengths[2] as usize;
    arrivals::rise(parts, lead.order, end - lead.start, trig, count)
}
