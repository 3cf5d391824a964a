/// A tree, or a list of trees, and how many nodes stand on its longest path.
#[derive(Drop)]
pub struct Part<T> {
    pub tree: T,
    pub height: usize,
}
