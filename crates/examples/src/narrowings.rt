// Words narrowed to bytes, in both orders: the boundaries of refusals 19 and 13, and the high byte of each sample.
use crate::samples;
use std::io::Stdout;

pub fn all(stdout: Stdout) {
    refused(stdout, 0);
    refused(stdout, 1);
    bytes(stdout, 0);
    bytes(stdout, 1);
    floors(
        stdout,
        b"\xff\xff\xff\x00\xfe\xff\x80\x00\x00\xff\x01\x00",
        0,
    );
    floors(
        stdout,
        b"\xff\xff\x00\xff\xff\xfe\x00\x80\xff\x00\x00\x01",
        1,
    );
}

// 19 and 13
fn refused(stdout: Stdout, order: u16) {
    words(
        stdout,
        "WORD, the greatest gain below 2^120",
        order,
        0x7b7f_ffff,
        363,
    );
    words(stdout, "WORD, a gain of 2^120", order, 0x7b80_0000, 363);
    words(stdout, "WORD, a gain of -2^120", order, 0xfb80_0000, 363);
    words(
        stdout,
        "WORD, a gain of 2^120, no room",
        order,
        0x7b80_0000,
        0,
    );
    words(stdout, "WORD, an infinite gain", order, 0x7f80_0000, 363);
    words(
        stdout,
        "WORD, one byte less than the narrowed block has",
        order,
        0x3f00_0000,
        362,
    );
    words(
        stdout,
        "WORD, the bytes that the narrowed block has",
        order,
        0x3f00_0000,
        363,
    );
}

// A WORD block of six samples: 346 + 6 bytes behind the header
fn words(stdout: Stdout, name: &str, order: u16, gain: u32, room: usize) {
    let samples = b"\x00\x00\x00\x00\x00\x00\x00\x00\x00\x00\x00\x00";
    samples::narrows(stdout, name, samples, 1, order, gain, room);
}

// A BYTE block: its gain is not asked for
fn bytes(stdout: Stdout, order: u16) {
    let samples = b"\x80\x7f\x00\xff";
    samples::narrows(
        stdout,
        "BYTE, a gain of 2^120",
        samples,
        0,
        order,
        0x7b80_0000,
        361,
    );
    samples::narrows(
        stdout,
        "BYTE, one byte less than the block has",
        samples,
        0,
        order,
        0x7b80_0000,
        360,
    );
}

// WORD: -1, -256, -257, -32,768, 255, 256
fn floors(stdout: Stdout, samples: &[u8; 12], order: u16) {
    samples::floors(stdout, "WORD -1 becomes -1", samples, order, 0, 255);
    samples::floors(stdout, "WORD -256 becomes -1", samples, order, 1, 255);
    samples::floors(stdout, "WORD -257 becomes -2", samples, order, 2, 254);
    samples::floors(stdout, "WORD -32,768 becomes -128", samples, order, 3, 128);
    samples::floors(stdout, "WORD 255 becomes 0", samples, order, 4, 0);
    samples::floors(stdout, "WORD 256 becomes 1", samples, order, 5, 1);
}
