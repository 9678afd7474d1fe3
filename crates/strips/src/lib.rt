// A segment in so many columns, to be drawn: refusals 1 to 8, 20, 9, 10, 11 and 13, then the least and the greatest sample of each column; and of
// all samples their sum, how many stand at the rail, and the first point that holds the greatest.
#![tactic(auto)]

mod bytes;
mod drawing;
mod elements;

ghost use Rattle.std.specs.Prelude.{◌≡◌, List, ℕ, ◌/◌, ◌≤◌, length, map};
ghost use mathlib.Core.List.{flatten};
ghost use Rattle.rules.specs.Rules.{opened};
ghost use Rattle.block.specs.Opened.{opened_as};
ghost use Rattle.fills.specs.Fills.{Holds, sample_at, over};
ghost use Rattle.tallies.specs.Tallies.{Seen};
ghost use Rattle.strips.specs.Strips.{strip as strip_in, strip_of, strip_refusal};
ghost use Rattle.strips.specs.Answers.{refused_strip, drawn_by, drawn_as, leasts_left, greatests_left, Drawable};

use block::Opened;
pub use bytes::{put_columns, unsigned};
use elements::Element;
use tallies::Tally;

// 0, the sum of all samples, how many stand at the rail, and the first point that holds the greatest; or the number of the refusal and zeros.
#[derive(Clone, Copy)]
pub struct Drawn {
    pub refusal: u32,
    pub sum: i64,
    pub marks: u32,
    pub peak: u32,
}

// A segment of an array in so many columns: the least sample of each at the start of least, the greatest at the start of greatest.
pub fn strip(
    block: &[u8],
    array: u32,
    segment: u32,
    columns: u32,
    least: &mut [i16],
    greatest: &mut [i16],
) -> Drawn
    ensures value { result ≡ drawn_as block.now array segment columns (length least.old) (length greatest.old) }
    ensures least_after { least.new ≡ leasts_left block.now array segment columns least.old (length greatest.old) }
    ensures greatest_after { greatest.new ≡ greatests_left block.now array segment columns (length least.old) greatest.old }
{
    let o = block::open(block);
    let number = judged(o, array, segment, columns, least.len(), greatest.len());
    if number != 0 {
        return refused(number);
    }
    columns_of(block, o, array, segment, columns, least, greatest)
}

// The number of the refusal of a strip of an opened block, with room for so many leasts and greatests, or 0.
pub fn judged(o: Opened, array: u32, segment: u32, columns: u32, low: usize, high: usize) -> u32
    ensures { (s : List ℕ) → o ≡ opened_as s → result ≡ strip_refusal s array segment columns low high }
{
    if o.refusal != 0 {
        return o.refusal;
    }
    let number = points::chosen(o, array, segment);
    if number != 0 {
        return number;
    }
    if !(1..=o.points).contains(&columns) {
        return 11;
    }
    if low.min(high) < columns as usize {
        return 13;
    }
    0
}

// A strip that is not refused.
fn columns_of<T: Element>(
    block: &[u8],
    o: Opened,
    array: u32,
    segment: u32,
    columns: u32,
    least: &mut [T],
    greatest: &mut [T],
) -> Drawn
    requires { Drawable block.now o array segment columns (length least.old / T.width) (length greatest.old / T.width) }
    ensures value { result ≡ drawn_by 0 (strip_of (opened block.now) array segment columns) }
    ensures least_after { least.new ≡ over least.old 0 (flatten (map T.written (strip_of (opened block.now) array segment columns).leasts)) }
    ensures greatest_after { greatest.new ≡ over greatest.old 0 (flatten (map T.written (strip_of (opened block.now) array segment columns).greatests)) }
{
    let from = points::samples_from(o, array, segment);
    let count = o.points as usize;
    let size = o.kind as usize + 1;
    let w = columns as usize;
    let t = drawing::draw(block, from, count, size, o.order, w, least, greatest);
    told(block, from, count, size, o.order, t)
}

// What is told of all samples, by their tally. The first that is the greatest is looked for from where on it may be.
fn told(block: &[u8], from: usize, count: usize, size: usize, order: u32, t: Tally) -> Drawn
    requires holds { Holds block.now from count size }
    requires le_count { (1 ≤ count) × (count ≤ 16777216) }
    requires seen { Seen size (sample_at order size block.now from) count t }
    ensures { (w : ℕ) → result ≡ drawn_by 0 (strip_in size (sample_at order size block.now from) count w) }
{
    let peak = crossings::first_behind(block, from, t.near, count, size, order, t.top, t.top);
    Drawn {
        refusal: 0,
        sum: t.heights as i64 - (count * 32768) as i64,
        marks: t.marks,
        peak: peak as u32,
    }
}

// A refused strip: its number and zeros.
fn refused(number: u32) -> Drawn
    ensures { result ≡ refused_strip number }
{
    Drawn {
        refusal: number,
        sum: 0,
        marks: 0,
        peak: 0,
    }
}
