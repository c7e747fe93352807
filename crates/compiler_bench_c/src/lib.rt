//! The benchmark of compile and list_back as a static library: what a caller outside links.
#![tactic(auto)]

use std::alloc::Global;

/// Compiles the lets of this height, and lists them back, so many times each: how many rows came back in all; 0 where there was no memory.
#[unsafe(no_mangle)]
pub extern "C" fn compiler_rounds(heap: Global, height: u32, compiles: u32, lists: u32) -> u64 {
    compiler_bench::compiler_rounds(heap, height, compiles, lists)
}
