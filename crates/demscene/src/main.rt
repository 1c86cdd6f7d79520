// The scene after the recording on standard input, as text on standard output.
#![tactic(auto)]

mod input;
mod lines;

fn main(rt: HostRuntime) {
    input::read_and_show(&rt);
}
