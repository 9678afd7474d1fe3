// The first sample between two numbers: blocks of sixty-four samples that have none are passed over, which compiles to vector code, and
// then one sample after the other.
ghost use Rattle.std.specs.Prelude.{◌≡◌, true, false, map, ℕ, ◌-◌, ◌<◌, ◌≤◌, length};
ghost use Rattle.rules.specs.Numbers.{up_from};
ghost use Rattle.fills.specs.Fills.{Holds, sample_at};
ghost use Rattle.levels.specs.Levels.{between};
ghost use Rattle.crossings.specs.Answers.{some?, First};

// The number of the first of `count` samples from `from` that stands from low to high, or `count`.
pub(crate) fn first_between(
    block: &[u8],
    from: usize,
    count: usize,
    size: usize,
    order: u32,
    low: i16,
    high: i16,
) -> usize
    requires { Holds block.now from count size }
    ensures { First (λ k. between low high (sample_at order size block.now from k)) count result }
{
    let done = passed(block, from, count, size, order, low, high);
    first_behind(block, from, done, count, size, order, low, high)
}

// The same number where none before the one numbered `done` stands from low to high: one sample after the other.
pub fn first_behind(
    block: &[u8],
    from: usize,
    done: usize,
    count: usize,
    size: usize,
    order: u32,
    low: i16,
    high: i16,
) -> usize
    requires holds { Holds block.now from count size }
    requires done_le_count { done ≤ count }
    requires by_index { (j : ℕ) → j < done → between low high (sample_at order size block.now from j) ≡ false }
    ensures { First (λ k. between low high (sample_at order size block.now from k)) count result }
{
    for i in done..count {
        let z = fills::sample(block, from, i, size, order);
        if (low <= z) & (z <= high) {
            return i;
        }
    }
    count
}

// How many samples are passed over, none of them from low to high: all before the block that has one, or before those that fill no block.
fn passed(
    block: &[u8],
    from: usize,
    count: usize,
    size: usize,
    order: u32,
    low: i16,
    high: i16,
) -> usize
    requires { Holds block.now from count size }
    ensures upper_bound { result ≤ count }
    ensures by_index { (j : ℕ) → j < result → between low high (sample_at order size block.now from j) ≡ false }
    ensures result_value { 64 ≤ count - result → some? (between low high) (map (sample_at order size block.now from) (up_from result 64)) ≡ true }
{
    let mut samples = [0i16; 64];
    let blocks = count / 64;
    for b in 0..blocks {
        let first = b * 64;
        fills::read_samples(block, from, first, size, order, &mut samples);
        if any_between(&samples, low, high) {
            return first;
        }
    }
    blocks * 64
}

// Whether one of sixty-four samples stands from low to high. All are compared, since a loop that stopped at the first would compile to no
// vector code.
fn any_between(samples: &[i16; 64], low: i16, high: i16) -> bool
    requires { length samples.now ≡ 64 }
    ensures { result ≡ some? (between low high) samples.now }
{
    let mut any = false;
    for z in samples {
        any |= (low <= *z) & (*z <= high);
    }
    any
}
