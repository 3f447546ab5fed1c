// What commands over a shape of a model share: the shape of an id in the model of a file, its table over a store of patterns, and whether
// its values are served.
#![tactic(auto)]

mod shape;

pub use shape::{LoadedShape, filled_shape, load_shape, table_named};
pub use sm_asked;
pub use sm_asked::sm_load;
