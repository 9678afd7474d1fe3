// The one cut for two, for a host in C.
ghost use Rattle.std.specs.Prelude.{◌≡◌, ◌≤◌, length};
ghost use Rattle.rules.specs.Numbers.{all_bytes, splice};
ghost use Rattle.cuts.specs.Cuts.{setup_as};
ghost use Rattle.tessarquin.specs.Calls.{setup, setup_numbers, combined_number, combined_left};

use cuts::Setup;

// The setup of the one cut for the cut a, and then the cut b of what a wrote, which answered `count` as its c: SP, NP, FP and SN.
pub fn tessarquin_combined(
    spa: u32,
    npa: u32,
    fpa: u32,
    sna: u32,
    spb: u32,
    npb: u32,
    fpb: u32,
    snb: u32,
    count: u32,
    answer: &mut [u8],
) -> u32
    ensures value { result ≡ combined_number (setup spa npa fpa sna) (setup spb npb fpb snb) count (length answer.old) }
    ensures answer_after { answer.new ≡ combined_left (setup spa npa fpa sna) (setup spb npb fpb snb) count answer.old }
{
    let a = Setup {
        sp: spa,
        np: npa,
        fp: fpa,
        sn: sna,
    };
    let b = Setup {
        sp: spb,
        np: npb,
        fp: fpb,
        sn: snb,
    };
    let Some(setup) = cuts::combined(a, b, count) else {
        return 12;
    };
    if answer.len() < 32 {
        return 13;
    }
    put_setup(setup, answer);
    0
}

// The four numbers of a setup, at the start of out.
pub(crate) fn put_setup(c: Setup, out: &mut [u8])
    requires { 32 ≤ length out.old }
    ensures { out.new ≡ splice out.old 0 (all_bytes 0 8 (setup_numbers (setup_as c))) }
{
    let four = [c.sp as u64, c.np as u64, c.fp as u64, c.sn as u64];
    crate::put_numbers(four, out, 0);
}
