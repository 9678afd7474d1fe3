// The columns one after another: the least and the greatest sample of each, as numbers or as bytes, and the tally of all samples.
ghost use Rattle.std.specs.Prelude.{◌≡◌, ◌*◌, ◌≤◌, length, map};
ghost use mathlib.Core.List.{flatten};
ghost use Rattle.columns.specs.Columns.{lesser, greater, start, columns as columns_of};
ghost use Rattle.fills.specs.Fills.{Holds, sample_at, over};
ghost use Rattle.tallies.specs.Tallies.{Seen};

use crate::elements::Element;
use tallies::Tally;

// Each column's numbers at the start of lows and of highs. A byte is the same number in every order. The two sizes have a call each: so the
// compiler keeps the loop as a function of its own, and what that takes of the stack is not there while the block is opened.
pub(crate) fn draw<T: Element>(
    block: &[u8],
    from: usize,
    count: usize,
    size: usize,
    order: u32,
    columns: usize,
    lows: &mut [T],
    highs: &mut [T],
) -> Tally
    requires holds { Holds block.now from count size }
    requires le_columns { (1 ≤ columns) × (columns ≤ count) × (count ≤ 16777216) }
    requires columns_in_bounds { (columns * T.width ≤ length lows.old) × (columns * T.width ≤ length highs.old) }
    ensures seen { Seen size (sample_at order size block.now from) count result }
    ensures lows_after { lows.new ≡ over lows.old 0 (flatten (map T.written (columns_of lesser (sample_at order size block.now from) count columns))) }
    ensures highs_after { highs.new ≡ over highs.old 0 (flatten (map T.written (columns_of greater (sample_at order size block.now from) count columns))) }
{
    if size == 1 {
        return draw_each(block, from, count, 1, 0, columns, lows, highs);
    }
    draw_each(block, from, count, 2, order, columns, lows, highs)
}

// The columns' numbers, one column after the other.
fn draw_each<T: Element>(
    block: &[u8],
    from: usize,
    count: usize,
    size: usize,
    order: u32,
    columns: usize,
    lows: &mut [T],
    highs: &mut [T],
) -> Tally
    requires holds { Holds block.now from count size }
    requires le_columns { (1 ≤ columns) × (columns ≤ count) × (count ≤ 16777216) }
    requires columns_in_bounds { (columns * T.width ≤ length lows.old) × (columns * T.width ≤ length highs.old) }
    ensures seen { Seen size (sample_at order size block.now from) count result }
    ensures lows_after { lows.new ≡ over lows.old 0 (flatten (map T.written (columns_of lesser (sample_at order size block.now from) count columns))) }
    ensures highs_after { highs.new ≡ over highs.old 0 (flatten (map T.written (columns_of greater (sample_at order size block.now from) count columns))) }
{
    let mut t = tallies::none();
    let mut a = 0;
    for q in 0..columns {
        let b = boundary(count, columns, q + 1);
        t = tallies::column(block, from, a, b, size, order, t);
        T::put(t.least, q, lows);
        T::put(t.greatest, q, highs);
        a = b;
    }
    t
}

// Where column q starts, and the one before it ends. The product has up to 48 bits.
fn boundary(count: usize, columns: usize, q: usize) -> usize
    requires { (1 ≤ columns) × (columns ≤ count) × (count ≤ 16777216) × (q ≤ columns) }
    ensures { result ≡ start count columns q }
{
    q * count / columns
}
