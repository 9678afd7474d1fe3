// The calls for a host in C: numbers and byte slices only. Each returns 0 or the number of its refusal, and writes its answer as numbers of
// eight bytes, the high byte first. The crate tessarquin_c exports them.
#![tactic(auto)]

mod combining;
mod crossed;
mod drawn;
mod joined;
mod narrowed;
mod portions;
mod typed;

ghost use Rattle.std.specs.Prelude.{◌≡◌, [], ◌∷◌, ◌+◌, ◌*◌, ◌≤◌, length};
ghost use Rattle.rules.specs.Numbers.{all_bytes, splice};
ghost use Rattle.rules.specs.Rules.{opened};
ghost use Rattle.rules.specs.Points.{mark_count, walk_refusal};
ghost use Rattle.points.specs.Walks.{place_of};
ghost use Rattle.tessarquin.specs.Calls.{setup, open_number, open_left, point_number, point_left, value_bits, fill_bytes, fill_number, fill_left, cut_number, cut_left, cut_answer_left};

use block::Opened;
pub use combining::tessarquin_combined;
pub use crossed::tessarquin_crossing;
use cuts::Setup;
pub use drawn::tessarquin_strip;
pub use joined::tessarquin_join;
pub use narrowed::tessarquin_narrow;
use points::Place;
pub use portions::{tessarquin_label, tessarquin_layout, tessarquin_user_text};
pub use typed::{tessarquin_setup_read, tessarquin_setup_write};

// Opens a block: g, M, arrays, COMM_ORDER and COMM_TYPE.
pub fn tessarquin_open(block: &[u8], answer: &mut [u8]) -> u32
    ensures value { result ≡ open_number block.now (length answer.old) }
    ensures answer_after { answer.new ≡ open_left block.now answer.old }
{
    let o = block::open(block);
    if o.refusal != 0 {
        return o.refusal;
    }
    if answer.len() < 40 {
        return 13;
    }
    put_opened(o, answer);
    0
}

// A point of a segment of an array: the bits of its value and of its time, and its mark.
pub fn tessarquin_point(
    block: &[u8],
    array: u32,
    segment: u32,
    point: u32,
    answer: &mut [u8],
) -> u32
    ensures value { result ≡ point_number block.now array segment point (length answer.old) }
    ensures answer_after { answer.new ≡ point_left block.now array segment point answer.old }
{
    let p = points::point(block, array, segment, point);
    if p.refusal != 0 {
        return p.refusal;
    }
    if answer.len() < 24 {
        return 13;
    }
    let mark = fills::mark_number(p.mark) as u64;
    put_numbers([scale::bits(p.value), scale::bits(p.time), mark], answer, 0);
    0
}

// All M points of a segment of an array: the bits of their values, and how many of their samples stand at the rail.
pub fn tessarquin_fill(block: &[u8], array: u32, segment: u32, answer: &mut [u8]) -> u32
    ensures value { result ≡ fill_number block.now array segment (length answer.old) }
    ensures answer_after { answer.new ≡ fill_left block.now array segment answer.old }
{
    let place = points::place_of(block, array, segment);
    if place.refusal != 0 {
        return place.refusal;
    }
    if answer.len() < place.points as usize * 8 + 8 {
        return 13;
    }
    put_filled(block, array, segment, place, answer);
    0
}

// Cuts a block by SP, NP, FP and SN into the order asked for: the block to out, c and its length to the answer.
pub fn tessarquin_cut(
    block: &[u8],
    sp: u32,
    np: u32,
    fp: u32,
    sn: u32,
    order: u32,
    out: &mut [u8],
    answer: &mut [u8],
) -> u32
    ensures value { result ≡ cut_number block.now (setup sp np fp sn) order (length out.old) (length answer.old) }
    ensures out_after { out.new ≡ cut_left block.now (setup sp np fp sn) order out.old (length answer.old) }
    ensures answer_after { answer.new ≡ cut_answer_left block.now (setup sp np fp sn) order (length out.old) answer.old }
{
    let setup = Setup { sp, np, fp, sn };
    if answer.len() < 16 {
        // the number of a cut that has nowhere to go: never 0
        return cuts::cut(block, setup, order, &mut []).refusal;
    }
    let w = cuts::cut(block, setup, order, out);
    if w.refusal != 0 {
        return w.refusal;
    }
    put_numbers([w.count as u64, w.length as u64], answer, 0);
    0
}

// The five numbers of an opened block, at the start of out.
fn put_opened(o: Opened, out: &mut [u8])
    requires { 40 ≤ length out.old }
    ensures { out.new ≡ splice out.old 0 (all_bytes 0 8 (o.segments ∷ o.points ∷ o.arrays ∷ o.order ∷ o.kind ∷ [])) }
{
    let five = [
        o.segments as u64,
        o.points as u64,
        o.arrays as u64,
        o.order as u64,
        o.kind as u64,
    ];
    put_numbers(five, out, 0);
}

// The bits of the values of a walk's segment and the number of its marks, at the start of out.
fn put_filled(block: &[u8], array: u32, segment: u32, place: Place, out: &mut [u8])
    requires place_value { place ≡ place_of block.now array segment }
    requires segment_value { walk_refusal block.now array segment ≡ 0 }
    requires points_in_bounds { place.points * 8 + 8 ≤ length out.old }
    ensures { out.new ≡ splice out.old 0 (fill_bytes block.now array segment) }
{
    let behind = place.points as usize * 8;
    let marks = put_values(block, array, segment, place, out);
    numbers::put_u64(marks, 0, out, behind);
}

// The bits of the values of a walk's segment, at the start of out; the answer is how many of its samples stand at the rail.
fn put_values(block: &[u8], array: u32, segment: u32, place: Place, out: &mut [u8]) -> u64
    requires place_value { place ≡ place_of block.now array segment }
    requires segment_value { walk_refusal block.now array segment ≡ 0 }
    requires points_in_bounds { place.points * 8 ≤ length out.old }
    ensures out_after { out.new ≡ splice out.old 0 (all_bytes 0 8 (value_bits block.now array segment)) }
    ensures value { result ≡ mark_count (opened block.now) array segment }
{
    let from = place.samples;
    let count = place.points as usize;
    let c = place.calibration;
    if place.kind == 0 {
        return fills::put_bytes(block, from, count, c, out) as u64;
    }
    fills::put_words(block, from, count, place.order, c, out) as u64
}

// N numbers of eight bytes from `at`, the high byte first.
fn put_numbers<const N: usize>(items: [u64; N], out: &mut [u8], at: usize)
    requires { at + N * 8 ≤ length out.old }
    ensures { out.new ≡ splice out.old at (all_bytes 0 8 items.entry) }
{
    for i in 0..N {
        numbers::put_u64(items[i], 0, out, at + i * 8);
    }
}
