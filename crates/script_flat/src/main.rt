//! The program on a long mixed script over the store setting 'flat'.
#![tactic(auto)]

use driver::run_script;
use std::io;

fn main(rt: HostRuntime) -> io::Result<()> {
    run_script(rt)
}
