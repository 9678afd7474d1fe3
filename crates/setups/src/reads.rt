// A setup line read: the word, then pair after pair, at most four.
ghost use Rattle.std.specs.Prelude.{◌≡◌, ◌+◌, ◌≤◌, length, take, drop};
ghost use Rattle.cuts.specs.Cuts.{setup_as};
ghost use Rattle.lines.specs.Reader.{key_of, pair_at, pairs_at, word_at};
ghost use Rattle.setups.specs.Setups.{reading_as, word_as, key_as, found_as, numbers_in, pairs_as};

use cuts::Setup;

// A pair: which of SP, NP, FP and SN its key is, its value, and where it ends.
#[derive(Clone, Copy)]
struct Found {
    key: usize,
    value: u32,
    next: usize,
}

// Reads a setup line: what it says; or that it is none, which is 15.
pub fn read(line: &[u8]) -> Option<Setup>
    ensures { result ≡ reading_as line.now }
{
    let start = word_end(line)?;
    read_pairs(line, start)
}

// Where the pairs start: behind the word and its blank.
fn word_end(line: &[u8]) -> Option<usize>
    ensures { result ≡ word_as (word_at line.now) }
{
    if line.starts_with(b"WFSU ") {
        return Some(5);
    }
    if line.starts_with(b"WAVEFORM_SETUP ") {
        return Some(15);
    }
    None
}

// The setup of the pairs from `start` to the line's end.
fn read_pairs(line: &[u8], start: usize) -> Option<Setup>
    requires { start ≤ length line.now }
    ensures { result ≡ pairs_as (pairs_at 4 (drop start line.now)) }
{
    let mut values: [Option<u32>; 4] = [None; 4];
    let mut at = start;
    for _ in 0..4u32 {
        let Found { key, value, next } = pair_at(line, at)?;
        if values[key].is_some() {
            return None;
        }
        values[key] = Some(value);
        if next == line.len() {
            return Some(setup_of(values));
        }
        if line[next] != b',' {
            return None;
        }
        at = next + 1;
    }
    None
}

// The pair that stands at `at`.
fn pair_at(line: &[u8], at: usize) -> Option<Found>
    requires { at ≤ length line.now }
    ensures { result ≡ found_as at (pair_at (drop at line.now)) }
{
    if line.len() - at < 3 {
        return None;
    }
    let key = key_at(line, at)?;
    if line[at + 2] != b',' {
        return None;
    }
    // A value has ten digits at most: one more is read, to see that it is one too many.
    let from = at + 3;
    let run = digits::read(line, from, from + (line.len() - from).min(11));
    let count = run.end - from;
    if !((1 <= count) & (count <= 10) & (run.value <= 4294967295)) {
        return None;
    }
    Some(Found {
        key,
        value: run.value as u32,
        next: run.end,
    })
}

// Which of SP, NP, FP and SN stands at `at`.
fn key_at(line: &[u8], at: usize) -> Option<usize>
    requires { at + 2 ≤ length line.now }
    ensures { result ≡ key_as (key_of (take 2 (drop at line.now))) }
{
    match (line[at], line[at + 1]) {
        (b'S', b'P') => Some(0),
        (b'N', b'P') => Some(1),
        (b'F', b'P') => Some(2),
        (b'S', b'N') => Some(3),
        _ => None,
    }
}

// The setup of the four values, a missing one as 0.
fn setup_of(values: [Option<u32>; 4]) -> Setup
    ensures { setup_as result ≡ numbers_in values }
{
    Setup {
        sp: values[0].unwrap_or(0),
        np: values[1].unwrap_or(0),
        fp: values[2].unwrap_or(0),
        sn: values[3].unwrap_or(0),
    }
}
