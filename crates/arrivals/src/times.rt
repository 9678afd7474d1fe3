// Whether the trigger times of parts rise by index. The parts stand in the order in which they came, so the times of 32 indices are gathered at a time.
ghost use Rattle.std.specs.Prelude.{◌≡◌, ◌+◌, ◌≤◌, length, take, drop};
ghost use Rattle.rules.specs.Rules.{ascending};
ghost use Rattle.joining.specs.Join.{parts_in};
ghost use Rattle.arrivals.specs.Arrivals.{Timed, times_at};

// Whether no TRIGGER_TIME is less than that of the index before it, of `count` parts. It starts at `trig` in each payload.
// Kept a function of its own, so that its times are not on the stack while parts are opened.
#[inline(never)]
pub fn rise(parts: &[u8], order: u32, long: usize, trig: usize, count: usize) -> bool
    requires timed { Timed order long trig parts.now }
    requires count_value { (count ≡ length (parts_in parts.now)) × (count ≤ 1000) }
    ensures { result ≡ ascending (times_at order trig parts.now) }
{
    // A `while`: a range in steps of 31 would have to hold count - 1 at 0 where there is no part.
    let mut skip = 0;
    while skip + 1 < count {
        let window = (count - skip).min(32);
        if !rise_within(parts, order, long, trig, skip, window) {
            return false;
        }
        skip += 31;
    }
    true
}

// The same of the indices behind `skip`, `count` of them.
fn rise_within(
    parts: &[u8],
    order: u32,
    long: usize,
    trig: usize,
    skip: usize,
    count: usize,
) -> bool
    requires timed { Timed order long trig parts.now }
    requires count_in_bounds { (skip + count ≤ length (parts_in parts.now)) × (count ≤ 32) }
    ensures { result ≡ ascending (take count (drop skip (times_at order trig parts.now))) }
{
    let mut times = [0u8; 256];
    parts::place_rows(parts, order, long, trig, 8, skip, count, &mut times, 0);
    block::ascend(&times, 0, 8, count, order)
}
