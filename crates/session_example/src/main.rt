// The program `session` on the twenty bytes of document 01.
#![tactic(auto)]

fn main(rt: HostRuntime) {
    report::print_input(&mut rt.stdin());
}
