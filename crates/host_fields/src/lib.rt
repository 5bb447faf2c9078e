//! The host of a script: a run's forest and heap, and reading and setting what values have.
//!
//! A value of a script names nodes, places and scopes of the forest, and texts, lists and objects
//! of the heap. Here stand the names that the host knows, what each value has under a name or a
//! key, and what a write does. The methods stand in the crate above.
#![tactic(auto)]

mod arguments;
mod comments;
mod door;
mod host;
mod keys;
mod kinds;
mod list_changes;
mod lists;
mod literals;
mod method;
mod names;
mod natives;
mod objects;
mod reading;
mod scalar_writes;
mod scalars;
mod settling;
mod views;
mod walk;
mod weights;
mod writing;

pub use arguments::{Item, item_of, items_of, list_of_items, nodes_of};
pub use door::{
    UNKNOWN, first_of, has_node, has_place, kind_at, known_node, known_place, next_of, node_at,
    owner_of, place_of, prev_of, scalar_of,
};
pub use host::{Host, Known, push};
pub use keys::{index_of, key_word, read_index};
pub use kinds::{Field, field_named};
pub use list_changes::arena_stop;
pub use lists::{forget_list, list_item, list_items, list_length, list_place, place_value};
pub use method::{CollectionMethod, ItemsMethod, Method, PathMethod, ScopeMethod, has_method};
pub use names::{View, known_names, method_at, view_at, view_word};
pub use natives::native_field;
pub use objects::{comment_object, copied_text, set_view};
pub use reading::{Read, node_field, read_field, read_value};
pub use settling::{End, add_items};
pub use value_methods::{ListMethod, TextMethod};
pub use views::{get, get_at, length_of};
pub use walk::{Change, Over, Task, Walk};
pub use weights::{Aim, Weight, test_room, weigh};
pub use writing::{path_stop, set, set_at};
