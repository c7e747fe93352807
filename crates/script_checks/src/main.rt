//! The program on a script of row checks.
#![tactic(auto)]

use driver::run_script;
use std::io;

fn main(rt: HostRuntime) -> io::Result<()> {
    run_script(rt)
}
