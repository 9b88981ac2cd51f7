// The program `session` on an input of 65,537 bytes.
#![tactic(auto)]

fn main(rt: HostRuntime) {
    report::print_input(&mut rt.stdin());
}
