//! The program on a model of more than a hundred rows.
#![tactic(auto)]

use driver::run_script;
use std::io;

fn main(rt: HostRuntime) -> io::Result<()> {
    run_script(rt)
}
