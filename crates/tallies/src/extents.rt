// The least and the greatest of some samples, and how far they are above -32,768 together.
ghost use Rattle.std.specs.Prelude.{◌≡◌, List, [], ◌∷◌, ◌+◌, ◌<◌, ◌≤◌};
ghost use Rattle.columns.specs.Columns.{run};
ghost use Rattle.fills.specs.Fills.{Holds, sample_at};
ghost use Rattle.tallies.specs.Tallies.{extent_of};

// Of some samples: the least, the greatest, and how far they are above -32,768 together.
#[derive(Clone, Copy)]
pub(crate) struct Extent {
    pub least: i16,
    pub greatest: i16,
    pub heights: u64,
}

// Of one.
pub(crate) fn one(z: i16) -> Extent
    ensures { result ≡ extent_of (z ∷ []) }
{
    Extent {
        least: z,
        greatest: z,
        heights: u64::from(z.abs_diff(i16::MIN)),
    }
}

// Of the points from a up to but not including b, at most 256. High and low bytes are added up apart, in 16 bits as the samples are: so each
// vector instruction takes as many as it compares.
pub(crate) fn measure(
    block: &[u8],
    from: usize,
    a: usize,
    b: usize,
    size: usize,
    order: u32,
) -> Extent
    requires holds { Holds block.now from b size }
    requires a_lt_b { (a < b) × (b ≤ a + 256) }
    ensures { result ≡ extent_of (run (sample_at order size block.now from) a b) }
{
    let mut least = i16::MAX;
    let mut greatest = i16::MIN;
    let mut low: u16 = 0;
    let mut high: u16 = 0;
    for k in a..b {
        let z = fills::sample(block, from, k, size, order);
        least = least.min(z);
        greatest = greatest.max(z);
        let h = z.abs_diff(i16::MIN);
        low += h % 256;
        high += h / 256;
    }
    Extent {
        least,
        greatest,
        heights: high as u64 * 256 + low as u64,
    }
}
