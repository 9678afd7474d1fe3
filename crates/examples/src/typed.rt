// Setup lines: read, and what was read written as its normal line; and the boundary of refusal 15 for the room of a line.
use crate::asks;
use cuts::Setup;
use std::io::Stdout;

pub fn all(stdout: Stdout) {
    reads(stdout, "WFSU SP,4,NP,0,FP,10,SN,0");
    reads(stdout, "WAVEFORM_SETUP SN,2");
    reads(stdout, "WFSU FP,0000000007,SP,4294967295");
    reads(stdout, "wfsu SP,4");
    reads(stdout, "WFSU  SP,4");
    reads(stdout, "WFSU SP,4,");
    reads(stdout, "WFSU SP,4,SP,4");
    reads(stdout, "WFSU SP,4294967296");
    reads(stdout, "WFSU SP,00000000001");
    writes(stdout, "the bytes that the longest line has", 60);
    writes(stdout, "one byte less than the longest line has", 59);
}

// Reads a line: 0 and the normal line of what it says, or 15 and the line as it is.
fn reads(stdout: Stdout, line: &str) {
    let Some(setup) = setups::read(line.as_bytes()) else {
        return asks::print(stdout, 15, line);
    };
    let mut out = [0u8; 60];
    let w = setups::write(setup, &mut out);
    let normal = str::from_utf8(asks::part(&out, w.length as usize)).unwrap_or("");
    asks::print(stdout, w.refusal, normal);
}

// Writes the longest line to so many bytes.
fn writes(stdout: Stdout, name: &str, room: usize) {
    let most = u32::MAX;
    let setup = Setup {
        sp: most,
        np: most,
        fp: most,
        sn: most,
    };
    let mut out = [0u8; 60];
    let w = setups::write(setup, &mut out[..room.min(60)]);
    asks::print(stdout, w.refusal, name);
}
