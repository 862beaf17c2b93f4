use graph_model::Cells;

/// The cells of a block, with the version that they are and the mark of a strike. Tag 0 is a block that was never written.
#[derive(Debug, Drop)]
pub struct BlockCells {
    pub tag: u32,
    pub struck: bool,
    pub cells: Cells,
}
