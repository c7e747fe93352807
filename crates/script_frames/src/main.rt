//! The program on a program that calls itself, with three cells and 2 frames.
#![tactic(auto)]

use driver::run_script;
use std::io;

fn main(rt: HostRuntime) -> io::Result<()> {
    run_script(rt)
}
