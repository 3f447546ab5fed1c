// What values are written by.
use crate::Leaves;
use sm_shapes::tables::Table;
use std::alloc::Global;

/// What values are written by: where copies of names and texts get their memory, a table, and how leaves are spelled.
#[derive(Drop)]
pub(crate) struct Writing<'a, L: Leaves> {
    pub alloc: Global,
    pub table: &'a Table,
    pub leaves: &'a L,
}
