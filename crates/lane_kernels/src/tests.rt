ghost use Rattle.std.specs.Prelude.{◌≡◌, ◌≤◌, ◌*◌, length, IfOk};
ghost use Rattle.lane_kernels.specs.MinPlus.{IsNonNegative};

use crate::{NONE, close_tile, min_plus, min_plus_plain};
use std::alloc::{AllocError, Global};
use std::test::Fail;

// A tile of weights below 1000, where about each third is NONE.
fn sample(alloc: Global, side: usize, seed: usize) -> Result<Vec<i64>, AllocError>
    requires small { side ≤ 32 }
    requires few { seed ≤ 4 }
    ensures square { IfOk result (λ tile. length tile.items ≡ side * side) }
    ensures weights { IfOk result (λ tile. IsNonNegative tile.items) }
{
    let mut tile = Vec::new(alloc);
    for place in 0..side * side {
        let number = (place * 7919 + seed * 104_729) % 1000;
        let weight = if number % 3 == 0 { NONE } else { number as i64 };
        tile.push(weight)?;
    }
    Ok(tile)
}

fn floyd_warshall(tile: &mut [i64], side: usize)
    requires small { side ≤ 32 }
    requires square { length tile.old ≡ side * side }
{
    for k in 0..side {
        for i in 0..side {
            for j in 0..side {
                let way = tile[i * side + k].saturating_add(tile[k * side + j]);
                tile[i * side + j] = tile[i * side + j].min(way);
            }
        }
    }
}

#[test]
fn as_by_plain_loops(rt: HostRuntime) -> Result<(), Fail> {
    let alloc = rt.alloc();
    for side in [1, 3, 8, 31, 32] {
        assert!(rt; 1 <= side);
        assert!(rt; side <= 32);
        let first = sample(alloc, side, 1)?;
        let second = sample(alloc, side, 2)?;
        let mut lanes = sample(alloc, side, 3)?;
        let mut plain = sample(alloc, side, 3)?;
        min_plus(&mut lanes, &first, &second, side);
        min_plus_plain(&mut plain, &first, &second, side);
        assert!(rt; lanes == plain, "products of side {side}");

        let mut tile = sample(alloc, side, 4)?;
        let mut walks = sample(alloc, side, 4)?;
        close_tile(&mut tile, side);
        floyd_warshall(&mut walks, side);
        assert!(rt; tile == walks, "walks of side {side}");
    }
    Ok(())
}
