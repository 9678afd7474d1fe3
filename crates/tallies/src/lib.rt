// The samples of a column, and what is kept of all before it: the least and the greatest of the column; and of all samples so far their sum,
// how many stand at the rail, and from where on the greatest is to be looked for.
#![tactic(auto)]

mod extents;
mod marks;

ghost use Rattle.std.specs.Prelude.{◌≡◌, ◌+◌, ◌^◌, ◌<◌, ◌≤◌};
ghost use Rattle.columns.specs.Columns.{least, greatest, run};
ghost use Rattle.fills.specs.Fills.{Holds, sample_at};
ghost use Rattle.tallies.specs.Tallies.{nothing, together, Seen, Spanned};

use extents::Extent;

// Of a column the least and the greatest sample; of all samples so far how far they are above -32,768 together, how many stand at the rail,
// the greatest, and the number of a sample before which none reaches the greatest.
#[derive(Clone, Copy)]
pub struct Tally {
    pub least: i16,
    pub greatest: i16,
    pub heights: u64,
    pub marks: u32,
    pub top: i16,
    pub near: usize,
}

// Of no samples: no sample is above 32,767 or below -32,768.
pub fn none() -> Tally
    ensures { result ≡ nothing }
{
    Tally {
        least: i16::MAX,
        greatest: i16::MIN,
        heights: 0,
        marks: 0,
        top: i16::MIN,
        near: 0,
    }
}

// With the points of a column more, from a up to but not including b. Fewer than eight go one by one: no vector instruction takes so few.
pub fn column(
    block: &[u8],
    from: usize,
    a: usize,
    b: usize,
    size: usize,
    order: u32,
    before: Tally,
) -> Tally
    requires holds { Holds block.now from b size }
    requires a_lt_b { (a < b) × (b ≤ 16777216) }
    requires seen { Seen size (sample_at order size block.now from) a before }
    ensures least_value { result.least ≡ least (run (sample_at order size block.now from) a b) }
    ensures greatest_value { result.greatest ≡ greatest (run (sample_at order size block.now from) a b) }
    ensures seen_2 { Seen size (sample_at order size block.now from) b result }
{
    let t = Tally {
        least: i16::MAX,
        greatest: i16::MIN,
        ..before
    };
    if b - a < 8 {
        return few(block, from, a, b, size, order, t);
    }
    many(block, from, a, b, size, order, t)
}

// With the points from a up to but not including b more, one by one.
fn few(
    block: &[u8],
    from: usize,
    a: usize,
    b: usize,
    size: usize,
    order: u32,
    start: Tally,
) -> Tally
    requires holds { Holds block.now from b size }
    requires a_le_b { (a ≤ b) × (b ≤ 16777216) }
    requires seen { Seen size (sample_at order size block.now from) a start }
    requires spanned { Spanned (sample_at order size block.now from) a a start }
    ensures seen_2 { Seen size (sample_at order size block.now from) b result }
    ensures spanned_2 { Spanned (sample_at order size block.now from) a b result }
{
    let mut t = start;
    for k in a..b {
        let z = fills::sample(block, from, k, size, order);
        let mark = u32::from(fills::at_rail(z, size));
        t = join(t, extents::one(z), mark, k);
    }
    t
}

// With the points from a up to but not including b more, 256 at a time.
fn many(
    block: &[u8],
    from: usize,
    a: usize,
    b: usize,
    size: usize,
    order: u32,
    start: Tally,
) -> Tally
    requires holds { Holds block.now from b size }
    requires a_le_b { (a ≤ b) × (b ≤ 16777216) }
    requires seen { Seen size (sample_at order size block.now from) a start }
    requires spanned { Spanned (sample_at order size block.now from) a a start }
    ensures seen_2 { Seen size (sample_at order size block.now from) b result }
    ensures spanned_2 { Spanned (sample_at order size block.now from) a b result }
{
    let mut t = start;
    // By a range in steps (`step_by`) it was tried, and took 18 instructions more for each 256 points.
    let mut i = a;
    while i < b {
        let e = b.min(i + 256);
        let x = extents::measure(block, from, i, e, size, order);
        let m = marks::marks_of(block, from, i, e, size, order, x);
        t = join(t, x, m, i);
        i = e;
    }
    t
}

// A tally with the samples of an extent more, which start with the one numbered `at`: from there on the greatest is to be looked for where it is
// greater than all before. The greatest of all has theirs first: so the loop over fewer than eight points keeps it in its register.
fn join(t: Tally, e: Extent, marks: u32, at: usize) -> Tally
    requires { (t.heights + e.heights < 2 ^ 64) × (t.marks + marks < 2 ^ 32) }
    ensures { result ≡ together t e marks at }
{
    Tally {
        least: t.least.min(e.least),
        greatest: t.greatest.max(e.greatest),
        heights: t.heights + e.heights,
        marks: t.marks + marks,
        top: e.greatest.max(t.top),
        near: if t.top < e.greatest { at } else { t.near },
    }
}
