// Blocks that are opened: the boundaries of refusals 1 to 5.
// Numbers are stored at places of the slice: a field's offset and 11.
use crate::asks;
use std::io::Stdout;

pub fn all(stdout: Stdout) {
    frame(stdout);
    headers(stdout);
    length(stdout);
    name(stdout);
    form(stdout);
    tile(stdout);
}

// 1
fn frame(stdout: Stdout) {
    asks::slices(stdout, "an empty slice", 0, &[]);
    asks::slices(stdout, "ten bytes", 10, &[]);
    asks::stored(stdout, "a first byte $", &[(0, 0x3030_3924)]);
    asks::stored(stdout, "a digit /", &[(7, 0x2f34_3330)]);
    asks::stored(stdout, "a digit :", &[(7, 0x3a34_3330)]);
    asks::stored(stdout, "the example", &[]);
}

// headers from #1 to #9: 1 and 2
fn headers(stdout: Stdout) {
    asks::heads(stdout, "one byte", b"#", 1);
    asks::heads(stdout, "#0", b"#0", 350);
    asks::heads(stdout, "#:", b"#:", 350);
    asks::heads(stdout, "#6 without its last digit", b"#6000348", 7);
    asks::heads(stdout, "#6 with a digit :", b"#600034:", 356);
    asks::heads(stdout, "#6 alone", b"#6000348", 8);
    asks::heads(stdout, "#6, a byte missing", b"#6000348", 355);
    asks::heads(stdout, "#1 and 9", b"#19", 351);
    asks::heads(stdout, "#2 and 99", b"#299", 352);
    asks::heads(stdout, "#3 and 348", b"#3348", 353);
    asks::heads(stdout, "#6 and 000348", b"#6000348", 356);
    asks::heads(stdout, "#8 and 00000348", b"#800000348", 358);
    asks::heads(stdout, "#8 and nine digits", b"#8000000348", 359);
}

// 2
fn length(stdout: Stdout) {
    asks::slices(stdout, "L 345", 356, &[(7, 0x3534_3330)]);
    asks::slices(
        stdout,
        "L 346, and lengths that are more",
        357,
        &[(7, 0x3634_3330)],
    );
    asks::slices(stdout, "a byte missing", 358, &[]);
    asks::slices(stdout, "one new line", 360, &[(359, 10)]);
    asks::slices(stdout, "two new lines", 361, &[(359, 2570)]);
    asks::slices(stdout, "another byte at the end", 360, &[(359, 13)]);
    asks::slices(stdout, "eleven bytes", 11, &[]);
}

// 3
fn name(stdout: Stdout) {
    asks::stored(stdout, "a name wAVEDESC", &[(11, 0x4556_4177)]);
    asks::stored(stdout, "a name WAVEDES", &[(15, 0x0053_4544)]);
    asks::stored(stdout, "a name WAVEDESC1", &[(19, 0x0000_0031)]);
    asks::stored(
        stdout,
        "a byte behind the name's zero byte",
        &[(19, 0x0000_0100)],
    );
    asks::stored(stdout, "a template LECROY_2_4", &[(35, 0x0000_345f)]);
    asks::stored(stdout, "a template LECROY_2_", &[(35, 0x3300_005f)]);
    asks::stored(stdout, "a template LECROY_2_30", &[(35, 0x0030_335f)]);
    asks::stored(stdout, "a template with no zero byte", &[(37, 0x3030_3030)]);
    asks::stored(
        stdout,
        "a byte behind the template's zero byte",
        &[(35, 0x0100_335f)],
    );
    asks::stored(
        stdout,
        "a template with a byte at its end",
        &[(39, 0x0100_0000)],
    );
}

// 4
fn form(stdout: Stdout) {
    asks::stored(stdout, "bytes 34 and 35 are 00 01", &[(43, 0x0100_0000)]);
    asks::stored(stdout, "bytes 34 and 35 are 02 00", &[(43, 0x0002_0000)]);
    asks::stored(stdout, "bytes 34 and 35 are 01 01", &[(43, 0x0101_0000)]);
    asks::stored(stdout, "COMM_TYPE is 2", &[(43, 0x0001_0002)]);
    asks::stored(stdout, "COMM_TYPE is -1", &[(43, 0x0001_ffff)]);
}

// 5
fn tile(stdout: Stdout) {
    asks::stored(
        stdout,
        "WAVE_DESCRIPTOR is 345, USER_TEXT 1",
        &[(47, 345), (51, 1)],
    );
    asks::stored(
        stdout,
        "RES_DESC1 is 1, WAVE_ARRAY_1 1",
        &[(55, 1), (71, 1)],
    );
    asks::stored(
        stdout,
        "RES_ARRAY1 is 1, WAVE_ARRAY_1 1",
        &[(67, 1), (71, 1)],
    );
    asks::stored(
        stdout,
        "RES_ARRAY2 is 1, WAVE_ARRAY_1 1",
        &[(79, 1), (71, 1)],
    );
    asks::stored(
        stdout,
        "RES_ARRAY3 is 1, WAVE_ARRAY_1 1",
        &[(83, 1), (71, 1)],
    );
    asks::stored(
        stdout,
        "USER_TEXT is -2, WAVE_ARRAY_1 4",
        &[(51, 0xffff_fffe), (71, 4)],
    );
    asks::stored(stdout, "WAVE_ARRAY_1 is 3", &[(71, 3)]);
}
