// What is chosen of accepted blocks: the boundaries of refusals 9 to 13, that what a cut writes is accepted, and which cuts are combined.
use crate::asks;
use crate::blocks::Shape;
use cuts::Setup;
use std::io::Stdout;

pub fn all(stdout: Stdout) {
    point(stdout);
    point_segment(stdout);
    fill(stdout);
    cut(stdout);
    cut_room(stdout);
    cut_under(stdout);
    written(stdout);
    combined(stdout);
    combined_fp(stdout);
}

// 9 of a point
fn point(stdout: Stdout) {
    let cases = [
        ("point 0 of segment 1 of array 0", Shape::Segments, 0, 1, 0),
        ("point 0 of segment 1 of array 1", Shape::Segments, 1, 1, 0),
        (
            "point 0 of segment 1 of array 2, which is absent",
            Shape::Segments,
            2,
            1,
            0,
        ),
        ("point 0 of segment 1 of array 2", Shape::Arrays, 2, 1, 0),
        ("point 0 of segment 1 of array 3", Shape::Arrays, 3, 1, 0),
    ];
    for (name, shape, array, segment, k) in cases {
        asks::points(stdout, name, shape, array, segment, k);
    }
}

// 10 and 11 of a point, and 20 before 9
fn point_segment(stdout: Stdout) {
    let cases = [
        ("point 0 of segment 0", Shape::Segments, 1, 0, 0),
        ("point 0 of segment g", Shape::Segments, 1, 2, 0),
        ("point 1 of segment g + 1", Shape::Segments, 1, 3, 1),
        ("point M", Shape::Example, 1, 1, 2),
        (
            "point M of segment 0 of array 3, TRIGGER_TIMEs 1 and 0",
            Shape::Backwards,
            3,
            0,
            1,
        ),
    ];
    for (name, shape, array, segment, k) in cases {
        asks::points(stdout, name, shape, array, segment, k);
    }
}

// 9, 10 and 13 of a fill
fn fill(stdout: Stdout) {
    let cases = [
        (
            "a fill of array 3, segment 0, no room",
            Shape::Example,
            3,
            0,
            0,
        ),
        ("a fill of segment 0, no room", Shape::Example, 1, 0, 0),
        ("a fill with room for M - 1", Shape::Example, 1, 1, 1),
        ("a fill with room for M", Shape::Example, 1, 1, 2),
        (
            "a fill of array 3, segment 0, no room, TRIGGER_TIMEs 1 and 0",
            Shape::Backwards,
            3,
            0,
            0,
        ),
    ];
    for (name, shape, array, segment, room) in cases {
        asks::fills(stdout, name, shape, array, segment, room);
    }
}

// 9 to 12 of a cut
fn cut(stdout: Stdout) {
    asks::cuts(
        stdout,
        "a cut in the order 2, with SN g + 1",
        Shape::Segments,
        setup(0, 0, 1, 3),
        2,
        0,
    );
    asks::cuts(
        stdout,
        "a cut with SN g + 1 and FP M",
        Shape::Segments,
        setup(0, 0, 1, 3),
        1,
        0,
    );
    asks::cuts(
        stdout,
        "a cut with FP M and SP 268,435,456",
        Shape::Example,
        setup(268435456, 0, 2, 0),
        1,
        0,
    );
    asks::cuts(
        stdout,
        "a cut with FP M - 1 and SP 268,435,456",
        Shape::Example,
        setup(268435456, 0, 1, 0),
        1,
        0,
    );
}

// 12 at its boundary, 13, and 20 before both
fn cut_room(stdout: Stdout) {
    let all = setup(1, 0, 0, 0);
    asks::cuts(
        stdout,
        "a cut with SP 268,435,455",
        Shape::Example,
        setup(268435455, 0, 0, 0),
        0,
        358,
    );
    asks::cuts(
        stdout,
        "a cut with room for a byte less",
        Shape::Example,
        all,
        0,
        358,
    );
    asks::cuts(
        stdout,
        "a cut with just the room",
        Shape::Example,
        all,
        0,
        359,
    );
    asks::cuts(
        stdout,
        "a cut in the order 2, no room, TRIGGER_TIMEs 1 and 0",
        Shape::Backwards,
        all,
        2,
        0,
    );
}

// a cut writes #9, which may be six bytes more than the block has
fn cut_under(stdout: Stdout) {
    asks::cuts_under(
        stdout,
        "a cut under #3 with room for its block",
        b"#3348",
        353,
        353,
    );
    asks::cuts_under(
        stdout,
        "a cut under #3 with six bytes more",
        b"#3348",
        353,
        359,
    );
    asks::cuts_under(
        stdout,
        "a cut under #6 with two bytes more",
        b"#6000348",
        356,
        358,
    );
    asks::cuts_under(
        stdout,
        "a cut under #6 with three bytes more",
        b"#6000348",
        356,
        359,
    );
}

// 14 was never given and is not used: what a cut writes breaks no rule
fn written(stdout: Stdout) {
    let last = setup(268435455, 0, 1, 1);
    asks::opens_cut(
        stdout,
        "what a cut with SP 268,435,455 writes",
        Shape::Example,
        last,
        0,
    );
    asks::opens_cut(
        stdout,
        "what a cut of one segment of two writes",
        Shape::Segments,
        setup(1, 0, 0, 2),
        1,
    );
    asks::opens_cut(
        stdout,
        "what a cut with a RIS offset writes",
        Shape::Ris,
        last,
        1,
    );
    asks::opens_cut(
        stdout,
        "what a cut of two arrays writes",
        Shape::Arrays,
        last,
        0,
    );
    asks::opens_cut(
        stdout,
        "what a cut with old bytes behind its names writes",
        Shape::OldBytes,
        last,
        0,
    );
}

// 12 of two cuts as one: SP's product
fn combined(stdout: Stdout) {
    let first = setup(16384, 0, 0, 0);
    asks::combines(
        stdout,
        "cuts with SP 3, FP 1 and SP 2, FP 1",
        setup(3, 0, 1, 0),
        setup(2, 0, 1, 0),
    );
    asks::combines(
        stdout,
        "cuts with SP 16,384 and SP 16,383",
        first,
        setup(16383, 0, 0, 0),
    );
    asks::combines(stdout, "cuts with SP 16,384 and SP 16,384", first, first);
    asks::combines(
        stdout,
        "cuts with SP 0 and SP 268,435,455",
        setup(0, 0, 0, 0),
        setup(268435455, 0, 0, 0),
    );
    asks::combines(
        stdout,
        "cuts with SP 0 and SP 268,435,456",
        setup(0, 0, 0, 0),
        setup(268435456, 0, 0, 0),
    );
}

// 12 of two cuts as one: FP
fn combined_fp(stdout: Stdout) {
    asks::combines(
        stdout,
        "cuts with SP 16,384, FP 16,383 and FP 262,143",
        setup(16384, 0, 16383, 0),
        setup(1, 0, 262143, 0),
    );
    asks::combines(
        stdout,
        "cuts with SP 16,384, FP 16,384 and FP 262,143",
        setup(16384, 0, 16384, 0),
        setup(1, 0, 262143, 0),
    );
}

fn setup(sp: u32, np: u32, fp: u32, sn: u32) -> Setup {
    Setup { sp, np, fp, sn }
}
