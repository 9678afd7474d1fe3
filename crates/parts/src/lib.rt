// Parts lent back to back: each judged where it stands, two compared, and rows of good ones put where their index belongs.
#![tactic(auto)]

ghost use Rattle.std.specs.Prelude.{◌≡◌, ◌+◌, ◌*◌, ◌≤◌, ◌<◌, length, get_or, drop};
ghost use Rattle.rules.specs.Numbers.{splice};
ghost use Rattle.rules.specs.Rules.{same, payload_start};
ghost use Rattle.copies.specs.Copies.{part};
ghost use Rattle.joining.specs.Join.{parts_in};
ghost use Rattle.parts.specs.Parts.{refused_as, part_as, Placeable, rows_of, placed};

// A part: 0, where its payload starts in the slice, where it ends, and its SEGMENT_INDEX; or its number and zeros.
#[derive(Clone, Copy)]
pub struct Part {
    pub refusal: u32,
    pub start: usize,
    pub end: usize,
    pub index: u32,
}

// The part that starts at `at`: its header says where it ends.
pub fn part_at(parts: &[u8], at: usize) -> Part
    requires { at < length parts.now }
    ensures { result ≡ part_as parts.now at }
{
    let Some(header) = frames::header_of(&parts[at..]) else {
        return refused(1);
    };
    let start = at + header.start;
    let end = start as u64 + header.length;
    if (parts.len() as u64) < end {
        return refused(2);
    }
    let to = end as usize;
    let o = block::open(&parts[at..to]);
    if o.refusal != 0 {
        return refused(o.refusal);
    }
    Part {
        refusal: 0,
        start,
        end: to,
        index: o.index,
    }
}

// The answer for a bad part.
fn refused(number: u32) -> Part
    ensures { result ≡ refused_as number }
{
    Part {
        refusal: number,
        start: 0,
        end: 0,
        index: 0,
    }
}

// Whether the bytes from a on, `count` of them, are those from b on. `==` of the two slices was tried, and is slower: this compiles to vector
// code without a call.
pub fn same_bytes(parts: &[u8], a: usize, b: usize, count: usize) -> bool
    requires { (a + count ≤ length parts.now) × (b + count ≤ length parts.now) }
    ensures { result ≡ same (part parts.now a count) (part parts.now b count) }
{
    let mut ok = true;
    for i in 0..count {
        ok &= parts[a + i] == parts[b + i];
    }
    ok
}

// The bytes from `from` on of each part's payload, `size` of them, at out from `at` on, by index: those of the indices behind `skip`, `count` of them.
// Each payload has `long` bytes. One way through the parts, which needs no table of where they stand.
pub fn place_rows(
    parts: &[u8],
    order: u32,
    long: usize,
    from: usize,
    size: usize,
    skip: usize,
    count: usize,
    out: &mut [u8],
    at: usize,
)
    requires placeable { Placeable order long parts.now }
    requires size_bound { from + size ≤ long }
    requires count_in_bounds { skip + count ≤ length (parts_in parts.now) }
    requires size_in_bounds { at + count * size ≤ length out.old }
    ensures { out.new ≡ splice out.old at (rows_of from size skip count parts.now) }
{
    let mut here = 0;
    while here < parts.len() {
        let start = payload_at(parts, here);
        let index = numbers::u32_at(parts, start + 140, order) as usize;
        place_row(parts, start + from, size, index, skip, count, out, at);
        here = start + long;
    }
}

// Where the payload of a good part starts, which starts at `at` with `#` and a digit.
pub fn payload_at(parts: &[u8], at: usize) -> usize
    requires { (at + 11 < length parts.now) × (49 ≤ get_or parts.now (at + 1) 0) × (get_or parts.now (at + 1) 0 ≤ 57) }
    ensures { result ≡ at + payload_start (drop at parts.now) }
{
    at + 2 + (parts[at + 1] - b'0') as usize
}

// The bytes from `from` on, as the row of this index, where it is one of those that are asked for. Eight, as a time has,
// go in one move: `copy_from_slice` asks first whether they overlap, and is slower.
fn place_row(
    parts: &[u8],
    from: usize,
    size: usize,
    index: usize,
    skip: usize,
    count: usize,
    out: &mut [u8],
    at: usize,
)
    requires size_in_bounds { from + size ≤ length parts.now }
    requires size_in_bounds_2 { at + count * size ≤ length out.old }
    ensures { out.new ≡ placed at size skip count index (part parts.now from size) out.old }
{
    if index <= skip {
        return;
    }
    let k = index - skip - 1;
    if count <= k {
        return;
    }
    let to = at + k * size;
    if size == 8 {
        numbers::put_u64(numbers::u64_at(parts, from, 1), 1, out, to);
        return;
    }
    copies::copy_bytes(parts, from, size, out, to);
}
