use audit_blocks::Blocks;
use audit_checks::Links;

/// What the checks find out of tasks in ascending order of keys. A task goes by its place in that order.
#[derive(Drop)]
pub(crate) struct Findings {
    pub(crate) sink: u32,
    pub(crate) links: Links,
    // One more than the ranks.
    pub(crate) levels: Vec<u32>,
    pub(crate) blocks: Blocks,
}
