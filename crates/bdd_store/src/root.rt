/// The key of a root, which names a node of one store until it is released. It is neither cloned nor copied; one
/// that is dropped leaves its node a root.
#[derive(Drop)]
pub struct Root {
    pub(crate) key: usize,
}
