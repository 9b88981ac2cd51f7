// Reads a session of mainnet from standard input and prints its report, a line for each step (document 01, "At the edges").
// Of more than 65,536 bytes it prints only `long`; where the input could not be read, only `unread`.
#![tactic(auto)]

fn main(rt: HostRuntime) {
    report::print_input(&mut rt.stdin());
}
