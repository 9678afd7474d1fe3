// How many samples stand at the rail: looked at again only where the least or the greatest of them does.
ghost use Rattle.std.specs.Prelude.{◌≡◌, ◌+◌, ◌<◌, ◌≤◌};
ghost use Rattle.rules.specs.Points.{mark_count_of};
ghost use Rattle.columns.specs.Columns.{run};
ghost use Rattle.fills.specs.Fills.{Holds, sample_at};
ghost use Rattle.tallies.specs.Tallies.{extent_of};

use crate::extents::Extent;

// Of the points from a up to but not including b, of which this is the extent.
pub(crate) fn marks_of(
    block: &[u8],
    from: usize,
    a: usize,
    b: usize,
    size: usize,
    order: u32,
    e: Extent,
) -> u32
    requires holds { Holds block.now from b size }
    requires a_lt_b { (a < b) × (b ≤ a + 256) }
    requires e_value { e ≡ extent_of (run (sample_at order size block.now from) a b) }
    ensures { result ≡ mark_count_of size (run (sample_at order size block.now from) a b) }
{
    if fills::at_rail(e.least, size) | fills::at_rail(e.greatest, size) {
        return count_marks(block, from, a, b, size, order);
    }
    0
}

// Of the points from a up to but not including b, each looked at; the number has 16 bits as the samples do.
fn count_marks(block: &[u8], from: usize, a: usize, b: usize, size: usize, order: u32) -> u32
    requires holds { Holds block.now from b size }
    requires a_le_b { (a ≤ b) × (b ≤ a + 256) }
    ensures { result ≡ mark_count_of size (run (sample_at order size block.now from) a b) }
{
    let mut n: u16 = 0;
    for k in a..b {
        let z = fills::sample(block, from, k, size, order);
        n += u16::from(fills::at_rail(z, size));
    }
    u32::from(n)
}
