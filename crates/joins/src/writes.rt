// The joined block written: the front by the first part, then each table by index, in one way through the parts.
ghost use Rattle.std.specs.Prelude.{◌≡◌, ◌+◌, ◌*◌, ◌≤◌, length};
ghost use Rattle.rules.specs.Numbers.{splice};
ghost use Rattle.joining.specs.Join.{parts_in, joined_bytes};
ghost use Rattle.parts.specs.Parts.{Placeable, rows_of};
ghost use Rattle.joins.specs.Steps.{Gathered, Ready, tables_to};

use fronts::Lead;

// The whole block, at out's start.
pub fn write_joined(parts: &[u8], lead: Lead, count: usize, end: usize, total: u32, out: &mut [u8])
    requires ready { Ready parts.now lead count end total }
    requires total_in_bounds { 11 + total ≤ length out.old }
    ensures { out.new ≡ splice out.old 0 (joined_bytes (parts_in parts.now)) }
{
    let lengths = lead.lengths;
    let at = 357 + lengths[1] as usize;
    fronts::write_front(&parts[0..end], lead, count as u32, total, out);
    write_tables(parts, lead, count, end, out, at);
}

// TRIGTIME, RISTIME and the arrays of all parts, at out from `at` on: of the ten lengths those from 3 to 7. RISTIME is there with one part only.
fn write_tables(parts: &[u8], lead: Lead, count: usize, end: usize, out: &mut [u8], at: usize)
    requires gathered { Gathered parts.now lead count end }
    requires parts_in_bounds { at + length (tables_to 5 parts.now) ≤ length out.old }
    ensures { out.new ≡ splice out.old at (tables_to 5 parts.now) }
{
    let order = lead.order;
    let long = end - lead.start;
    let lengths = lead.lengths;
    let mut from = lengths[0] as usize + lengths[1] as usize + lengths[2] as usize;
    let mut to = at;
    for &length in &lengths[3..8] {
        let size = length as usize;
        write_table(parts, order, long, from, size, count, out, to);
        from += size;
        to += count * size;
    }
}

// The rows from `from` on of all payloads, by index, at out from `at` on. A table that is not there costs no way through the parts.
fn write_table(
    parts: &[u8],
    order: u32,
    long: usize,
    from: usize,
    size: usize,
    count: usize,
    out: &mut [u8],
    at: usize,
)
    requires placeable { Placeable order long parts.now }
    requires size_bound { (from + size ≤ long) × (count ≡ length (parts_in parts.now)) }
    requires size_in_bounds { at + count * size ≤ length out.old }
    ensures { out.new ≡ splice out.old at (rows_of from size 0 count parts.now) }
{
    if size < 1 {
        return;
    }
    parts::place_rows(parts, order, long, from, size, 0, count, out, at);
}
