// A matrix of intervals as its caller lends it.

// Rows and columns, and the lower and upper bounds of the cells by rows, in two slices, as the functions for C and the definitions have them.
// Sizes and slices may be any: who takes a matrix checks them.
#[derive(Clone, Copy)]
pub struct LentMatrix<'a> {
    pub rows: usize,
    pub columns: usize,
    pub lowers: &'a [u32],
    pub uppers: &'a [u32],
}
