//! The tiles of blocked shortest paths hold the least weights of walks.
#![tactic(auto)]

ghost use Rattle.apsp_graph.specs.Matrices.{IsMatrix, Matrix};
ghost use Rattle.walks.specs.Walks.{HasLeast};

/// What the tiles after all rounds hold, for each matrix that a text stands for.
pub fn laws(bytes: &[u8])
    ensures { (m : Matrix) → IsMatrix bytes.now m → HasLeast m }
{
    let _ = bytes.len();
}
