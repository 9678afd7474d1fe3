// Levels and the first point at or above them: the boundaries of refusals 9 and 10, and the first of four words, in both orders.
use crate::blocks::Shape;
use crate::{asks, samples};
use std::io::Stdout;

pub fn all(stdout: Stdout) {
    refused(stdout);
    both(stdout, b"\xff\xfd\x00\x04\x00\x02\x00\x09", 0);
    both(stdout, b"\xfd\xff\x04\x00\x02\x00\x09\x00", 1);
}

// 20 comes before the level's 9, and that before 10.
fn refused(stdout: Stdout) {
    let infinite = 1e308 * 10.0;
    let cases = [
        ("a crossing of 0", Shape::Example, 1, 1, 0.0),
        (
            "a crossing of an infinite level in segment 0",
            Shape::Example,
            1,
            0,
            infinite,
        ),
        (
            "a crossing of the greatest level in segment 0",
            Shape::Example,
            1,
            0,
            1.7976931348623157e308,
        ),
        ("a crossing in segment g + 1", Shape::Segments, 1, 3, 0.0),
        (
            "a crossing in array 2, which is absent",
            Shape::Example,
            2,
            1,
            0.0,
        ),
        (
            "a crossing of an infinite level, TRIGGER_TIMEs 1 and 0",
            Shape::Backwards,
            1,
            1,
            infinite,
        ),
    ];
    for (name, shape, array, segment, level) in cases {
        asks::crosses(stdout, name, shape, array, segment, level);
    }
}

// The words with each gain.
fn both(stdout: Stdout, samples: &[u8; 8], order: u16) {
    words(stdout, samples, order);
    turned(stdout, samples, order);
}

// WORD: -3, 4, 2, 9, of which the values are -1.75, 1.75, 0.75, 4.25, and with a gain of -0.5: 1.25, -2.25, -1.25, -4.75
fn words(stdout: Stdout, samples: &[u8; 8], order: u16) {
    let half = 0x3f00_0000;
    samples::finds(stdout, "the first point at -2", samples, order, half, -2.0);
    samples::finds(
        stdout,
        "the first point at 1.75",
        samples,
        order,
        half,
        1.75,
    );
    samples::finds(
        stdout,
        "the first point at the least above 1.75",
        samples,
        order,
        half,
        1.7500000000000002,
    );
    samples::finds(
        stdout,
        "the first point at 4.25",
        samples,
        order,
        half,
        4.25,
    );
    samples::finds(
        stdout,
        "the first point at 4.5, 99 for none",
        samples,
        order,
        half,
        4.5,
    );
}

// The same words with a gain of -0.5.
fn turned(stdout: Stdout, samples: &[u8; 8], order: u16) {
    samples::finds(
        stdout,
        "the first point at -2.25, gain -0.5",
        samples,
        order,
        0xbf00_0000,
        -2.25,
    );
    samples::finds(
        stdout,
        "the first point at 1.5, gain -0.5, 99 for none",
        samples,
        order,
        0xbf00_0000,
        1.5,
    );
}
