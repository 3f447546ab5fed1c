// From a graph to tables: which shapes a table can be made of, and the table of all that a shape reaches.
#![tactic(auto)]

mod compile;
mod compiled;
mod defaults;
mod differ;
mod enums;
mod formed;
mod kinds;
pub mod laws;
mod look;
mod members;
mod names;
mod numbering;
mod orders;
mod parts;
mod patterns;
mod reach;
mod roots;
mod rows;
mod seen;
mod shapes;
mod soundness;
mod storing;
mod tabled;
pub mod trait_ids;
mod traits;
mod unserved;
mod values;
mod way;
mod way_room;

pub use compile::compile_shape;
pub use compiled::{CompileRefusal, OneShape, Served};
pub use enums::fits_word;
pub use formed::{are_lengths_where, are_ordered_where, are_whole_bounds_where, is_range_where};
pub use kinds::{has_length, has_values, is_text_kind, is_whole_kind, may_target, table_kind};
pub use look::{id_text, kind_of, members_of, target_kind, target_of, targets_unit, trait_node};
pub use names::{json_name, member_name};
pub use numbering::{tabled_shapes, value_members};
pub use parts::row_at;
pub use reach::unmark_all;
pub use roots::compile_roots;
pub use seen::has_trait;
pub use soundness::{is_sound_shape, sound};
pub use tabled::Tabled;
pub use traits::{
    field_of, format_of, is_any_number, is_number, is_object, is_text, number_in, number_of,
    text_in_trait,
};
pub use unserved::{is_left_out, is_unserved};
pub use way_room::WayRoom;
