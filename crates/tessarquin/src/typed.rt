// Setups as lines, for a host in C.
ghost use Rattle.std.specs.Prelude.{◌≡◌, length};
ghost use Rattle.rules.specs.Cut.{or_else};
ghost use Rattle.cuts.specs.Cuts.{setup_as};
ghost use Rattle.lines.specs.Writer.{write_refusal};
ghost use Rattle.tessarquin.specs.Calls.{setup, setup_read_number, setup_read_left, setup_write_number, setup_write_left, setup_write_answer_left};

use crate::combining;
use cuts::Setup;

// Reads a setup line: SP, NP, FP and SN.
pub fn tessarquin_setup_read(line: &[u8], answer: &mut [u8]) -> u32
    ensures value { result ≡ setup_read_number line.now (length answer.old) }
    ensures answer_after { answer.new ≡ setup_read_left line.now answer.old }
{
    let Some(setup) = setups::read(line) else {
        return 15;
    };
    if answer.len() < 32 {
        return 13;
    }
    combining::put_setup(setup, answer);
    0
}

// Writes the normal line of a setup: the line to out, its length to the answer.
pub fn tessarquin_setup_write(
    sp: u32,
    np: u32,
    fp: u32,
    sn: u32,
    out: &mut [u8],
    answer: &mut [u8],
) -> u32
    ensures value { result ≡ setup_write_number (setup sp np fp sn) (length out.old) (length answer.old) }
    ensures out_after { out.new ≡ setup_write_left (setup sp np fp sn) out.old (length answer.old) }
    ensures answer_after { answer.new ≡ setup_write_answer_left (setup sp np fp sn) (length out.old) answer.old }
{
    let setup = Setup { sp, np, fp, sn };
    if answer.len() < 8 {
        return unanswered(setup, out.len());
    }
    let w = setups::write(setup, out);
    if w.refusal != 0 {
        return w.refusal;
    }
    numbers::put_u64(w.length as u64, 0, answer, 0);
    0
}

// The number of a line whose length cannot be told, for an output of so many bytes: 15 where the line does not fit either, and else 13.
fn unanswered(setup: Setup, room: usize) -> u32
    ensures { result ≡ or_else (write_refusal (setup_as setup) room) 13 }
{
    if room < setups::length_of(setup) {
        15
    } else {
        13
    }
}
