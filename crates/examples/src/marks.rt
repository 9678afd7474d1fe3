// Samples at the rail and beside it, in both orders: the mark of each point, 0 or 1, and how many a fill counts.
use crate::samples;
use std::io::Stdout;

pub fn all(stdout: Stdout) {
    bytes(stdout, 0);
    bytes(stdout, 1);
    words(
        stdout,
        b"\x80\x00\x7f\xff\x80\x01\x7f\xfe\xff\x80\x00\x7f",
        0,
    );
    words(
        stdout,
        b"\x00\x80\xff\x7f\x01\x80\xfe\x7f\x80\xff\x7f\x00",
        1,
    );
}

// BYTE: -128, 127, -127, 126
fn bytes(stdout: Stdout, order: u16) {
    let samples = b"\x80\x7f\x81\x7e";
    samples::marks(stdout, "the mark of BYTE -128", samples, 0, order, 0);
    samples::marks(stdout, "the mark of BYTE 127", samples, 0, order, 1);
    samples::marks(stdout, "the mark of BYTE -127", samples, 0, order, 2);
    samples::marks(stdout, "the mark of BYTE 126", samples, 0, order, 3);
    samples::counts(stdout, "marks in a fill of these four", samples, 0, order);
}

// WORD: -32,768, 32,767, -32,767, 32,766, -128, 127
fn words(stdout: Stdout, samples: &[u8; 12], order: u16) {
    samples::marks(stdout, "the mark of WORD -32,768", samples, 1, order, 0);
    samples::marks(stdout, "the mark of WORD 32,767", samples, 1, order, 1);
    samples::marks(stdout, "the mark of WORD -32,767", samples, 1, order, 2);
    samples::marks(stdout, "the mark of WORD 32,766", samples, 1, order, 3);
    samples::marks(stdout, "the mark of WORD -128", samples, 1, order, 4);
    samples::marks(stdout, "the mark of WORD 127", samples, 1, order, 5);
    samples::counts(stdout, "marks in a fill of these six", samples, 1, order);
}
