// Blocks that are opened: the boundaries of refusals 6 to 8 and 20, which the counts, the tables and the floats break.
// Numbers are stored at places of the slice: a field's offset and 11.
use crate::asks;
use crate::blocks::Shape;
use std::io::Stdout;

pub fn all(stdout: Stdout) {
    count(stdout);
    tables(stdout);
    index(stdout);
    floats(stdout);
    table_floats(stdout);
    times(stdout);
    times_below(stdout);
    times_beside(stdout);
}

// 6: counts
fn count(stdout: Stdout) {
    asks::stored(
        stdout,
        "WAVE_ARRAY_1 is 0, USER_TEXT 2",
        &[(71, 0), (51, 2)],
    );
    asks::stored(stdout, "WAVE_ARRAY_COUNT is 1", &[(127, 1)]);
    asks::stored(stdout, "WAVE_ARRAY_COUNT is -2", &[(127, 0xffff_fffe)]);
    asks::stored(stdout, "SUBARRAY_COUNT is -1", &[(155, 0xffff_ffff)]);
    asks::stored(stdout, "SUBARRAY_COUNT is 3", &[(155, 3)]);
    asks::stored(stdout, "SUBARRAY_COUNT is 2", &[(155, 2)]);
    asks::stored(stdout, "SEGMENT_INDEX is -1", &[(151, 0xffff_ffff)]);
    asks::stored(stdout, "SEGMENT_INDEX is 1 of one segment", &[(151, 1)]);
    asks::stored(
        stdout,
        "SEGMENT_INDEX is 1 of two segments",
        &[(151, 1), (155, 2)],
    );
}

// 6: tables and arrays
fn tables(stdout: Stdout) {
    asks::opens(stdout, "TRIGTIME is 16g", Shape::Segments, &[]);
    asks::opens(
        stdout,
        "TRIGTIME is 32, g is 1",
        Shape::Segments,
        &[(155, 1)],
    );
    asks::opens(stdout, "RISTIME is 8 x RIS_SWEEPS", Shape::Ris, &[]);
    asks::opens(
        stdout,
        "RISTIME is 8, RIS_SWEEPS 2",
        Shape::Ris,
        &[(331, 0x0002_0000)],
    );
    asks::opens(
        stdout,
        "RISTIME is 8, RIS_SWEEPS -1",
        Shape::Ris,
        &[(331, 0xffff_0000)],
    );
    asks::opens(stdout, "RISTIME of two segments", Shape::Ris, &[(155, 2)]);
    asks::opens(stdout, "RISTIME and TRIGTIME", Shape::TimeAndRis, &[]);
    asks::opens(
        stdout,
        "WAVE_ARRAY_2 is as long as WAVE_ARRAY_1",
        Shape::Arrays,
        &[],
    );
    asks::opens(
        stdout,
        "WAVE_ARRAY_2 is 1, USER_TEXT 1",
        Shape::Arrays,
        &[(75, 1), (51, 1)],
    );
}

// 7
fn index(stdout: Stdout) {
    asks::stored(stdout, "FIRST_POINT is -1", &[(143, 0xffff_ffff)]);
    asks::stored(stdout, "the last index is 268,435,455", &[(143, 268435454)]);
    asks::stored(stdout, "the last index is 268,435,456", &[(143, 268435455)]);
    asks::stored(stdout, "SPARSING_FACTOR is -1", &[(147, 0xffff_ffff)]);
    asks::stored(
        stdout,
        "SPARSING_FACTOR is 268,435,455",
        &[(147, 268435455)],
    );
    asks::stored(
        stdout,
        "SPARSING_FACTOR is 268,435,456",
        &[(147, 268435456), (155, 2)],
    );
    asks::stored(
        stdout,
        "FIRST_POINT is 1, SPARSING_FACTOR 268,435,455",
        &[(143, 1), (147, 268435455)],
    );
}

// 8: the descriptor's floats
fn floats(stdout: Stdout) {
    asks::stored(stdout, "the gain is infinite", &[(167, 0x7f80_0000)]);
    asks::stored(
        stdout,
        "the gain is the greatest there is",
        &[(167, 0x7f7f_ffff)],
    );
    asks::stored(stdout, "the offset is not a number", &[(171, 0x7fc0_0000)]);
    asks::stored(
        stdout,
        "the interval is minus infinite",
        &[(187, 0xff80_0000)],
    );
    asks::stored(stdout, "HORIZ_OFFSET is infinite", &[(195, 0x7ff0_0000)]);
    asks::stored(stdout, "HORIZ_OFFSET is nearly so", &[(195, 0x7fef_ffff)]);
    asks::stored(
        stdout,
        "MAX_VALUE and PIXEL_OFFSET are not numbers",
        &[(175, 0x7fc0_0000), (203, 0x7ff8_0000)],
    );
}

// 8: the tables' floats
fn table_floats(stdout: Stdout) {
    asks::opens(
        stdout,
        "a TRIGGER_TIME is infinite",
        Shape::Segments,
        &[(361, 0x7ff0_0000)],
    );
    asks::opens(
        stdout,
        "the last TRIGGER_OFFSET is infinite",
        Shape::Segments,
        &[(385, 0x7ff0_0000)],
    );
    asks::opens(
        stdout,
        "a RIS offset is not a number",
        Shape::Ris,
        &[(361, 0x7ff8_0000)],
    );
    asks::stored(stdout, "a sample like a NaN", &[(356, 0x7ff8_0000)]);
}

// 20: two TRIGGER_TIMEs, at 357 and 373
fn times(stdout: Stdout) {
    two_times(stdout, "TRIGGER_TIMEs 1 and 1", 0x3ff0_0000, 0x3ff0_0000);
    two_times(stdout, "TRIGGER_TIMEs 1 and 2", 0x3ff0_0000, 0x4000_0000);
    two_times(stdout, "TRIGGER_TIMEs 2 and 1", 0x4000_0000, 0x3ff0_0000);
}

// 20: times below zero
fn times_below(stdout: Stdout) {
    two_times(stdout, "TRIGGER_TIMEs -2 and -1", 0xc000_0000, 0xbff0_0000);
    two_times(stdout, "TRIGGER_TIMEs -1 and -2", 0xbff0_0000, 0xc000_0000);
}

// 20: zeros and the numbers beside them, and what stands beside the times
fn times_beside(stdout: Stdout) {
    asks::opens(
        stdout,
        "TRIGGER_TIMEs 0 and the least above it",
        Shape::Segments,
        &[(373, 1)],
    );
    asks::opens(
        stdout,
        "TRIGGER_TIMEs the least above 0 and 0",
        Shape::Segments,
        &[(357, 1)],
    );
    asks::opens(
        stdout,
        "TRIGGER_TIMEs 0 and -0",
        Shape::Segments,
        &[(377, 0x8000_0000)],
    );
    asks::opens(
        stdout,
        "TRIGGER_TIMEs -0 and 0",
        Shape::Segments,
        &[(361, 0x8000_0000)],
    );
    asks::opens(
        stdout,
        "TRIGGER_OFFSETs 1 and 0",
        Shape::Segments,
        &[(369, 0x3ff0_0000)],
    );
    asks::opens(
        stdout,
        "TRIGGER_TIMEs 1 and 0, the last TRIGGER_OFFSET infinite",
        Shape::Segments,
        &[(361, 0x3ff0_0000), (385, 0x7ff0_0000)],
    );
}

// Opens a block of two segments by the high words of their TRIGGER_TIMEs.
fn two_times(stdout: Stdout, name: &str, first: u32, second: u32) {
    asks::opens(
        stdout,
        name,
        Shape::Segments,
        &[(361, first), (377, second)],
    );
}
