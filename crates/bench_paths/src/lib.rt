//! The kernels of tiles and the reading of a matrix, for a C++ program that times them. A caller owes what is required.
#![tactic(auto)]

ghost use Rattle.std.specs.Prelude.{◌≡◌, ◌≤◌, ◌*◌, length};
ghost use Rattle.lane_kernels.specs.MinPlus.{IsNonNegative};

use std::alloc::Global;

#[unsafe(no_mangle)]
pub extern "C" fn bench_paths_min_plus(out: &mut [i64], a: &[i64], b: &[i64], side: usize)
    requires from_one { 1 ≤ side }
    requires to_32 { side ≤ 32 }
    requires square { length out.old ≡ side * side }
    requires left { length a.now ≡ side * side }
    requires right { length b.now ≡ side * side }
    requires old { IsNonNegative out.old }
    requires first { IsNonNegative a.now }
    requires second { IsNonNegative b.now }
{
    lane_kernels::min_plus(out, a, b, side);
}

#[unsafe(no_mangle)]
pub extern "C" fn bench_paths_min_plus_plain(out: &mut [i64], a: &[i64], b: &[i64], side: usize)
    requires from_one { 1 ≤ side }
    requires to_32 { side ≤ 32 }
    requires square { length out.old ≡ side * side }
    requires left { length a.now ≡ side * side }
    requires right { length b.now ≡ side * side }
    requires old { IsNonNegative out.old }
    requires first { IsNonNegative a.now }
    requires second { IsNonNegative b.now }
{
    lane_kernels::min_plus_plain(out, a, b, side);
}

#[unsafe(no_mangle)]
pub extern "C" fn bench_paths_close_tile(out: &mut [i64], side: usize)
    requires from_one { 1 ≤ side }
    requires to_32 { side ≤ 32 }
    requires square { length out.old ≡ side * side }
    requires old { IsNonNegative out.old }
{
    lane_kernels::close_tile(out, side);
}

/// Reads a matrix, and adds up its weights, so that no reading can be left out. It is 0 where there is a fault.
#[unsafe(no_mangle)]
pub extern "C" fn bench_paths_read_matrix(alloc: Global, text: &[u8]) -> u64
    requires { length text.now ≤ 67108864 }
{
    let Ok((graph, _)) = apsp_graph::read_matrix(alloc, text) else {
        return 0;
    };
    let mut sum: u64 = 0;
    for weight in graph.weights() {
        sum = sum.wrapping_add(u64::from(weight.unwrap_or(1)));
    }
    sum
}
