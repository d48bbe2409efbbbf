// A hop that was met, whose entry comes next.

// `left` lookups are left, the one that met it counted; `at` is the place of its entry, and the gateway the last used, if any.
#[derive(Clone, Copy)]
pub struct Way {
    pub left: u32,
    pub at: usize,
    pub gateway: Option<u32>,
}
