// Strips: the boundaries of refusals 9, 10, 11 and 13, and the first point that holds the greatest of six words, in both orders.
use crate::blocks::Shape;
use crate::{asks, samples};
use std::io::Stdout;

pub fn all(stdout: Stdout) {
    refused(stdout);
    short(stdout);
    words(
        stdout,
        b"\x00\x03\xff\xfb\x7f\xfe\x7f\xff\x80\x00\x7f\xff",
        0,
    );
    words(
        stdout,
        b"\x03\x00\xfb\xff\xfe\x7f\xff\x7f\x00\x80\xff\x7f",
        1,
    );
}

// 11 stands between 10 and 13.
fn refused(stdout: Stdout) {
    let cases = [
        ("a strip in one column", Shape::Example, 1, 1, 1),
        ("a strip in M columns", Shape::Example, 1, 1, 2),
        ("a strip in no columns", Shape::Example, 1, 1, 0),
        ("a strip in M + 1 columns", Shape::Example, 1, 1, 3),
        (
            "a strip of segment 0 in no columns",
            Shape::Example,
            1,
            0,
            0,
        ),
        (
            "a strip of array 3, segment 0, in no columns",
            Shape::Example,
            3,
            0,
            0,
        ),
        (
            "a strip of array 3, segment 0, in no columns, TRIGGER_TIMEs 1 and 0",
            Shape::Backwards,
            3,
            0,
            0,
        ),
    ];
    for (name, shape, array, segment, columns) in cases {
        asks::draws(stdout, name, shape, array, segment, columns);
    }
}

// 13 where one greatest has room
fn short(stdout: Stdout) {
    asks::draws_short(
        stdout,
        "a strip in one column with room for one greatest",
        1,
    );
    asks::draws_short(stdout, "a strip in M columns with room for one greatest", 2);
    asks::draws_short(
        stdout,
        "a strip in M + 1 columns with room for one greatest",
        3,
    );
}

// WORD: 3, -5, 32,766, 32,767, -32,768, 32,767
fn words(stdout: Stdout, samples: &[u8; 12], order: u16) {
    samples::peaks(
        stdout,
        "the peak of a strip in one column",
        samples,
        order,
        1,
    );
    samples::peaks(
        stdout,
        "the peak of a strip in four columns",
        samples,
        order,
        4,
    );
    samples::peaks(
        stdout,
        "the peak of a strip in M columns",
        samples,
        order,
        6,
    );
}
