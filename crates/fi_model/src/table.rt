// Tables of values.
ghost use Rattle.std.specs.Prelude.{◌≡◌, ◌<◌, length};
ghost use Rattle.fi_model.specs.Cells.{cells};

use tptp_base::List;

/// The values of a symbol at all lists of elements, row by row: the last element moves fastest.
#[derive(Drop)]
pub struct Table {
    /// How many elements there are at each place.
    pub sizes: List<usize>,
    pub values: List<usize>,
    ghost full: { length values ≡ cells sizes },
    ghost some: { 0 < length values },
}
