// Of pairs of bytes the second ones.
ghost use Rattle.std.specs.Prelude.{◌≡◌, true, ◌+◌, ◌*◌, ◌≤◌, length};
ghost use Rattle.rules.specs.Numbers.{splice};
ghost use Rattle.copies.specs.Copies.{items};

// The second byte of each of `count` pairs: a hundred and twenty-eight pairs at a time, and then the rest.
pub fn pick_seconds(src: &[u8], from: usize, count: usize, out: &mut [u8], at: usize)
    requires count_in_bounds { from + count * 2 ≤ length src.now }
    requires count_in_bounds_2 { at + count ≤ length out.old }
    ensures { out.new ≡ splice out.old at (items true src.now (from + 1) 2 1 count) }
{
    let blocks = count / 128;
    pick_blocks(src, from, blocks, out, at);
    let done = blocks * 128;
    pick_run(src, from + done * 2, count % 128, out, at + done);
}

// Of blocks of a hundred and twenty-eight pairs: the count is a constant, so that a block compiles to vector code with no turns.
fn pick_blocks(src: &[u8], from: usize, blocks: usize, out: &mut [u8], at: usize)
    requires blocks_in_bounds { from + blocks * 256 ≤ length src.now }
    requires blocks_in_bounds_2 { at + blocks * 128 ≤ length out.old }
    ensures { out.new ≡ splice out.old at (items true src.now (from + 1) 2 1 (blocks * 128)) }
{
    for i in 0..blocks {
        pick_run(src, from + i * 256, 128, out, at + i * 128);
    }
}

// A run of pairs, each as a number with the low byte first, of which the second byte is a 256th.
fn pick_run(src: &[u8], from: usize, count: usize, out: &mut [u8], at: usize)
    requires count_in_bounds { from + count * 2 ≤ length src.now }
    requires count_in_bounds_2 { at + count ≤ length out.old }
    ensures { out.new ≡ splice out.old at (items true src.now (from + 1) 2 1 count) }
{
    for i in 0..count {
        let pair = numbers::u16_at(src, from + i * 2, 1);
        let second = pair / 256;
        out[at + i] = second as u8;
    }
}
