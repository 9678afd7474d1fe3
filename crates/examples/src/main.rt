// Runs the lines of "Checked examples" that have no star and the boundaries of each refusal, opens what cuts write, combines cuts, asks for the marks of
// samples at the rail and beside it, looks for levels, draws strips, narrows words to bytes, and reads and
// writes setup lines: prints the number of each case and the case in words.
#![tactic(auto)]

mod asks;
mod blocks;
mod choices;
mod drawings;
mod fields;
mod judged;
mod marks;
mod narrowings;
mod reached;
mod samples;
mod typed;

fn main(rt: HostRuntime) {
    let stdout = rt.stdout();
    judged::all(stdout);
    fields::all(stdout);
    choices::all(stdout);
    marks::all(stdout);
    reached::all(stdout);
    drawings::all(stdout);
    narrowings::all(stdout);
    typed::all(stdout);
}
