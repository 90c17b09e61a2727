// The memory that a message points into.

// `limit` is how deep a descriptor may be: the nodes are read by it.
#[derive(Drop)]
pub(crate) struct Lent<'a> {
    pub(crate) limit: u64,
    pub(crate) text: &'a [u8],
    pub(crate) rows: &'a [u64],
    pub(crate) nodes: &'a [u64],
}
