// 256 times a gain, by its bit pattern: no float is multiplied.
ghost use Rattle.std.specs.Prelude.{◌≡◌, true, ◌<◌};
ghost use Rattle.std.specs.Float.Ieee.Scale.{finite};
ghost use Rattle.rules.specs.Rules.{finite32};
ghost use Rattle.narrowing.specs.Narrow.{widened, times256};
ghost use Rattle.narrows.specs.Steps.{doubled, grown};

// Whether 256 times the gain with these bits is finite: it is below 2^120 in size.
pub(crate) fn is_narrow(gain: u32) -> bool
    requires { finite32 gain ≡ true }
    ensures { result ≡ finite (widened gain) }
{
    gain % 0x8000_0000 < 0x7b80_0000
}

// The bits of 256 times the gain with these: the sign, and the rest doubled eight times.
pub(crate) fn times_256(gain: u32) -> u32
    requires gain_value { finite32 gain ≡ true }
    requires gain_value_2 { finite (widened gain) ≡ true }
    ensures { result ≡ times256 gain }
{
    let sign = gain / 0x8000_0000 * 0x8000_0000;
    sign + grow(gain % 0x8000_0000)
}

// A pattern without its sign, doubled eight times.
fn grow(pattern: u32) -> u32
    requires { pattern < 0x7b80_0000 }
    ensures value { result ≡ grown 8 pattern }
    ensures upper_bound { result < 0x7f80_0000 }
{
    let mut p = pattern;
    for _ in 0..8u32 {
        p = double(p);
    }
    p
}

// A pattern doubled: shifted where the exponent's field is 0, else one more in that field.
fn double(p: u32) -> u32
    requires { p < 0x7f80_0000 }
    ensures { result ≡ doubled p }
{
    if p < 0x80_0000 { p * 2 } else { p + 0x80_0000 }
}
