// Samples at the rail, the lowest or the highest number of their type, and how many there are.
ghost use Rattle.std.specs.Prelude.{◌≡◌, ◌≤◌, length};
ghost use Rattle.rules.specs.Points.{at_rail, mark_number, mark_count_of};

// Whether a sample of `size` bytes stands at the rail.
pub fn at_rail(sample: i16, size: usize) -> bool
    requires { (1 ≤ size) × (size ≤ 2) }
    ensures { result ≡ at_rail size sample }
{
    if size == 1 {
        return (sample == -128) | (sample == 127);
    }
    (sample == -32768) | (sample == 32767)
}

// How many of sixty-four samples of `size` bytes stand at the rail. The size is tested once, and the loop compiles to vector compares.
pub(crate) fn count_marks(samples: &[i16; 64], size: usize) -> usize
    requires le_size { (1 ≤ size) × (size ≤ 2) }
    requires samples_len { length samples.now ≡ 64 }
    ensures { result ≡ mark_count_of size samples.now }
{
    let mut n: u16 = 0;
    for sample in samples {
        n += mark_number(at_rail(*sample, size));
    }
    usize::from(n)
}

// 1 for a mark and 0 for none, in 16 bits as the samples are: so a vector instruction adds as many marks as it compares samples.
pub fn mark_number(mark: bool) -> u16
    ensures { result ≡ mark_number mark }
{
    u16::from(mark)
}
