//! The methods of the host's values, and on what they are called.

use script_values::Value;
use value_methods::{ListMethod, TextMethod};

/// The methods of a collection.
#[derive(Clone, Copy, Debug, PartialEq, Eq)]
pub enum CollectionMethod {
    Find,
    Filter,
    ForEach,
    Map,
    Some,
    Every,
    Size,
    At,
    Get,
    Paths,
    Nodes,
    Closest,
    ClosestScope,
    ReplaceWith,
    InsertBefore,
    InsertAfter,
    Remove,
    IsOfType,
    ToSource,
}

/// The methods of a path.
#[derive(Clone, Copy, Debug, PartialEq, Eq)]
pub enum PathMethod {
    Get,
    Replace,
    InsertBefore,
    InsertAfter,
    Prune,
}

/// The methods of a scope.
#[derive(Clone, Copy, Debug, PartialEq, Eq)]
pub enum ScopeMethod {
    Lookup,
    Declares,
    GetBindings,
}

/// The methods of lists and node lists that take a function.
#[derive(Clone, Copy, Debug, PartialEq, Eq)]
pub enum ItemsMethod {
    Map,
    Filter,
    ForEach,
    Some,
    Every,
    Find,
    Reduce,
}

/// A method, by the sort of value that has it.
#[derive(Clone, Copy, Debug, PartialEq, Eq)]
pub enum Method {
    Collection(CollectionMethod),
    Path(PathMethod),
    Scope(ScopeMethod),
    /// Whether a value is a node of the type.
    Check,
    Text(TextMethod),
    List(ListMethod),
    /// Of lists and node lists, with a function.
    Items(ItemsMethod),
}

// Whether a node list has a method of lists: all that read, and `push` and `unshift`.
fn is_for_node_lists(method: ListMethod) -> bool {
    !matches!(
        method,
        ListMethod::Pop | ListMethod::Shift | ListMethod::Reverse
    )
}

/// Whether a value is of the sort that has the method.
pub fn has_method(value: &Value, method: Method) -> bool {
    match method {
        Method::Collection(_) => matches!(*value, Value::Collection(_)),
        Method::Path(_) => matches!(*value, Value::Path(_)),
        Method::Scope(_) => matches!(*value, Value::Scope(_)),
        Method::Check => matches!(*value, Value::Type(_)),
        Method::Text(_) => matches!(*value, Value::Text(_)),
        Method::Items(_) => matches!(*value, Value::List(_) | Value::NodeList(..)),
        Method::List(method) => match *value {
            Value::List(_) => true,
            Value::NodeList(..) => is_for_node_lists(method),
            _ => false,
        },
    }
}
