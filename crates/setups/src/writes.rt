// The normal line of a setup written: the short word and the four pairs in their order, without leading zeros.
ghost use Rattle.std.specs.Prelude.{◌≡◌, ◌++◌, ◌+◌, ◌≤◌, length};
ghost use Rattle.rules.specs.Numbers.{splice};
ghost use Rattle.digits.specs.Digits.{decimal, places};
ghost use Rattle.copies.specs.Copies.{Wrote};
ghost use Rattle.cuts.specs.Cuts.{setup_as};
ghost use Rattle.lines.specs.Writer.{setup_line};
ghost use Rattle.setups.specs.Setups.{widths_of, line_length, printed_as, out_as};

use crate::Printed;
use cuts::Setup;

// How many decimal digits each of the four numbers has.
#[derive(Clone, Copy)]
struct Widths {
    sp: usize,
    np: usize,
    fp: usize,
    sn: usize,
}

// Writes the normal line of a setup at out's start. Refused, it writes nothing.
pub fn write(setup: Setup, out: &mut [u8]) -> Printed
    ensures value { result ≡ printed_as (setup_as setup) (length out.old) }
    ensures out_after { out.new ≡ out_as (setup_as setup) out.old }
{
    let widths = widths_of(setup);
    let long = line_length(widths);
    if out.len() < long {
        return Printed {
            refusal: 15,
            length: 0,
        };
    }
    put_line(setup, widths, out);
    Printed {
        refusal: 0,
        length: long as u32,
    }
}

// How many bytes the normal line of a setup has.
pub fn length_of(setup: Setup) -> usize
    ensures { result ≡ length (setup_line (setup_as setup)) }
{
    line_length(widths_of(setup))
}

// The digits of each number: ten at most.
fn widths_of(setup: Setup) -> Widths
    ensures value { result ≡ widths_of (setup_as setup) }
    ensures result_bound { line_length result ≤ 60 }
{
    Widths {
        sp: digits::places(setup.sp as u64),
        np: digits::places(setup.np as u64),
        fp: digits::places(setup.fp as u64),
        sn: digits::places(setup.sn as u64),
    }
}

// How many bytes a line with so many digits has.
fn line_length(widths: Widths) -> usize
    requires { line_length widths ≤ 60 }
    ensures { result ≡ line_length widths }
{
    20 + (widths.sp + widths.np + widths.fp + widths.sn)
}

// The normal line of a setup at out's start.
fn put_line(setup: Setup, widths: Widths, out: &mut [u8])
    requires widths_value { widths ≡ widths_of (setup_as setup) }
    requires widths_in_bounds { line_length widths ≤ length out.old }
    ensures { out.new ≡ splice out.old 0 (setup_line (setup_as setup)) }
{
    let sp = put_pair(b"WFSU SP,", setup.sp, widths.sp, out, 0);
    let np = put_pair(b",NP,", setup.np, widths.np, out, sp);
    let fp = put_pair(b",FP,", setup.fp, widths.fp, out, np);
    put_pair(b",SN,", setup.sn, widths.sn, out, fp);
}

// A text and the `width` decimal digits of n from `at` on; where they end.
fn put_pair(text: &[u8], n: u32, width: usize, out: &mut [u8], at: usize) -> usize
    requires width_value { width ≡ places n }
    requires width_in_bounds { at + (length text.now + width) ≤ length out.old }
    ensures { Wrote out.old at (text.now ++ decimal n) out.new result }
{
    let long = text.len();
    copies::copy_bytes(text, 0, long, out, at);
    digits::put_digits(n as u64, 10, width, out, at + long);
    at + long + width
}
