//! Reads a session script on standard input and prints the answers.
#![tactic(auto)]

use driver::run_script;
use std::io;

fn main(rt: HostRuntime) -> io::Result<()> {
    run_script(rt)
}
