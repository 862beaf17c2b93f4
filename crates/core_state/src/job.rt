/// What a duty of a task is: to come to all its predecessors, or to make its result.
#[derive(Clone, Copy, Debug, PartialEq, Eq)]
pub enum Job {
    Explore,
    Compute,
}
