/// What one cut adds to the load of one edge.
#[derive(Clone, Copy)]
pub(crate) struct Share {
    pub edge: u32,
    pub value: u64,
}
