// The parts of a join as they arrive, in any order: each is judged, compared with the first, and its index noted, in one way through them.
#![tactic(auto)]

mod times;

ghost use Rattle.std.specs.Prelude.{◌≡◌, true, cond, ℕ, ◌<◌, length, eqb};
ghost use Rattle.rules.specs.Rules.{payload_start, refusal, opened};
ghost use Rattle.seen.specs.Seen.{seen_of};
ghost use Rattle.parts.specs.Parts.{this, part_as};
ghost use Rattle.arrivals.specs.Arrivals.{index?, alike?, belongs?, Comparable, Judges};

use parts::Part;
pub use times::rise;

// 0, how many parts there are, and where the first of them ends; or the number of the join's refusal and zeros.
#[derive(Clone, Copy)]
pub struct Judged {
    pub refusal: u32,
    pub count: usize,
    pub end: usize,
}

// Whether the parts are good and belong together: 1 to 8 and 20 for the first bad one, or 16, or 0. Kept a function of its own, so that what it
// keeps on the stack is gone when the joined block is judged.
#[inline(never)]
pub fn judge(parts: &[u8]) -> Judged
    ensures { Judges parts.now result }
{
    if parts.is_empty() {
        return refused(16);
    }
    let first = parts::part_at(parts, 0);
    if first.refusal != 0 {
        return refused(first.refusal);
    }
    meet(parts, first)
}

// The same, where the first is good: those behind it are met one after another.
fn meet(parts: &[u8], first: Part) -> Judged
    requires { (0 < length parts.now) × (first ≡ part_as parts.now 0) × (first.refusal ≡ 0) }
    ensures { Judges parts.now result }
{
    let lead = first.start;
    let text = text_length(parts, lead);
    let index = first.index as usize;
    let mut together = is_index(index);
    let mut seen = [0u64; 16];
    note(&mut seen, index, together);
    let mut count: usize = 1;
    let mut here = first.end;
    while here < parts.len() {
        let part = parts::part_at(parts, here);
        if part.refusal != 0 {
            return refused(part.refusal);
        }
        let k = part.index as usize;
        let fits = belongs(parts, lead, part.start, text, &seen, k);
        note(&mut seen, k, fits);
        together &= fits;
        count += 1;
        here = part.end;
    }
    if 1000 < count {
        return refused(16);
    }
    if !(together & seen::has_up_to(&seen, count)) {
        return refused(16);
    }
    Judged {
        refusal: 0,
        count,
        end: first.end,
    }
}

// USER_TEXT of the good first part, whose payload starts at `lead`.
fn text_length(parts: &[u8], lead: usize) -> usize
    requires { (0 < length parts.now) × (refusal (this parts.now 0) ≡ 0) × (lead ≡ payload_start (this parts.now 0)) }
    ensures { result ≡ (opened (this parts.now 0)).head 40 }
{
    let order = parts[lead + 34] as u32;
    numbers::u32_at(parts, lead + 40, order) as usize
}

// Whether a join can have this index.
fn is_index(k: usize) -> bool
    ensures { result ≡ index? k }
{
    (1..=1000).contains(&k)
}

// Notes an index k where it is a new one.
fn note(seen: &mut [u64], k: usize, new: bool)
    requires seen_len { length seen.old ≡ 16 }
    requires k_bound { new ≡ true → (k < 1024) × (seen_of seen.old k ≡ 0) }
    ensures { new ≡ true → (j : ℕ) → seen_of seen.new j ≡ cond (eqb j k) 1 (seen_of seen.old j) }
{
    if new {
        seen::add(seen, k);
    }
}

// Whether the part whose payload starts at `start` belongs to those before it, by its index k, its descriptor and its user text.
fn belongs(parts: &[u8], lead: usize, start: usize, text: usize, seen: &[u64], k: usize) -> bool
    requires comparable { Comparable parts.now lead start text }
    requires seen_len { length seen.now ≡ 16 }
    ensures { result ≡ belongs? parts.now lead start text seen.now k }
{
    is_index(k) && !seen::has(seen, k) && are_alike(parts, lead, start, text)
}

// Whether the descriptors whose payloads start at lead and at start are the same but for SEGMENT_INDEX, and the user texts.
fn are_alike(parts: &[u8], lead: usize, start: usize, text: usize) -> bool
    requires { Comparable parts.now lead start text }
    ensures { result ≡ alike? parts.now lead start text }
{
    parts::same_bytes(parts, lead, start, 140)
        && parts::same_bytes(parts, lead + 144, start + 144, 202)
        && parts::same_bytes(parts, lead + 346, start + 346, text)
}

// The answer of a join that is refused.
fn refused(number: u32) -> Judged
    ensures { result ≡ record { refusal = number; count = 0; end = 0 } }
{
    Judged {
        refusal: number,
        count: 0,
        end: 0,
    }
}
