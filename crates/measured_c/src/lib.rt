// The archive of the two calls that are there to be counted (measured.h): those of the library with their clauses.
#![tactic(auto)]

ghost use Rattle.std.specs.Prelude.{◌≡◌, length};
ghost use Rattle.points.specs.Points.{filled_as, filled_out};
ghost use Rattle.measured.specs.Measured.{told_of};

// All M values of a segment of an array, at the start of out, by the fill; the answer has the refusal's number in its high half, and in its
// low half how many samples stand at the rail.
#[unsafe(no_mangle)]
pub extern "C" fn measured_fill(block: &[u8], array: u32, segment: u32, out: &mut [f64]) -> u64
    ensures value { result ≡ told_of (filled_as block.now array segment (length out.old)) }
    ensures out_after { out.new ≡ filled_out block.now array segment out.old }
{
    measured::measured_fill(block, array, segment, out)
}

// The same by the walk, point by point.
#[unsafe(no_mangle)]
pub extern "C" fn measured_walk(block: &[u8], array: u32, segment: u32, out: &mut [f64]) -> u64
    ensures value { result ≡ told_of (filled_as block.now array segment (length out.old)) }
    ensures out_after { out.new ≡ filled_out block.now array segment out.old }
{
    measured::measured_walk(block, array, segment, out)
}
