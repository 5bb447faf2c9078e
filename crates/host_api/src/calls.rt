//! The calls of the host: what a method call calls, and methods and native functions.

ghost use Rattle.std.specs.Prelude.{◌≤◌, ◌≡◌, length};

use crate::arguments::{argument, is_function, type_of};
use crate::collections::{at, is_of_type, nodes, paths, size, to_source};
use crate::filters::{Filter, filter_of};
use crate::finding::{Sought, Wanted, closest, find};
use crate::list_methods::{call_list, call_node_list, call_text};
use crate::natives::{call_builder, call_j, make_comment, match_node, match_parts};
use crate::path_changes::{change_paths, remove_paths};
use crate::paths::{call_path, get_along};
use crate::scopes::call_scope;
use crate::walks::{begin_changes, begin_find, begin_items, begin_match, begin_paths};
use host_fields::{
    Change, CollectionMethod, Host, ListMethod, Method, PathMethod, ScopeMethod, Task, TextMethod,
    key_word, kind_at, method_at, native_field, read_index,
};
use script_values::{CollectionId, Fault, ListId, Native, ObjectId, Stop, Value, Word};
use type_defs::{NodeType, is_a};

/// What a method call calls: a method of the host, or a value that is a function.
#[derive(Clone, Copy, Debug, PartialEq, Eq)]
pub enum Callee {
    Method(Method),
    Value(Value),
}

/// What a call answered: a value, or that a walk was begun. Then `step` and `accept` go on with it,
/// and `step` tells its answer.
#[derive(Clone, Copy, Debug, PartialEq, Eq)]
pub enum Called {
    Value(Value),
    Walk,
}

/// What a walk does next: it calls its function with the first `count` of these arguments, or it is
/// done with this answer and is no longer there.
#[derive(Clone, Copy, Debug, PartialEq, Eq)]
pub enum Step {
    Call {
        function: Value,
        arguments: [Value; 3],
        count: usize,
    },
    Done(Value),
}

fn value_callee(value: Value) -> Option<Callee> {
    if is_function(&value) {
        return Some(Callee::Value(value));
    }
    None
}

fn object_callee(host: &Host, object: ObjectId, word: Word) -> Result<Option<Callee>, Stop> {
    match host.heap.field(object, word)? {
        None => Ok(None),
        Some(value) => Ok(value_callee(value)),
    }
}

fn item_callee(host: &Host, list: ListId, index: i64) -> Result<Option<Callee>, Stop> {
    let Ok(index) = usize::try_from(index) else {
        return Ok(None);
    };
    match host.heap.items(list)?.get(index) {
        None => Ok(None),
        Some(value) => Ok(value_callee(*value)),
    }
}

// The method that a value has by its sort.
fn own_callee(value: Value, word: Word) -> Option<Callee> {
    let method = method_at(&value, word)?;
    Some(Callee::Method(method))
}

fn list_callee(host: &mut Host, list: ListId, word: Word) -> Result<Option<Callee>, Stop>
    ensures forest { host.new.arena ≡ host.old.arena }
{
    if let Some(callee) = own_callee(Value::List(list), word) {
        return Ok(Some(callee));
    }
    match read_index(&mut host.heap, word)? {
        None => Ok(None),
        Some(index) => item_callee(host, list, index),
    }
}

// Of the native functions `j` alone has functions under its names.
fn native_callee(host: &mut Host, native: Native, word: Word) -> Result<Option<Callee>, Stop>
    ensures forest { host.new.arena ≡ host.old.arena }
{
    match native {
        Native::Jscodeshift => Ok(value_callee(native_field(host, word)?)),
        _ => Ok(own_callee(Value::Native(native), word)),
    }
}

/// What a call of the method named by the word calls on a value; None where the value has no such
/// method.
pub fn method(host: &mut Host, on: Value, word: Word) -> Result<Option<Callee>, Stop>
    ensures forest { host.new.arena ≡ host.old.arena }
{
    match on {
        Value::Object(object) => object_callee(host, object, word),
        Value::List(list) => list_callee(host, list, word),
        Value::Native(native) => native_callee(host, native, word),
        _ => Ok(own_callee(on, word)),
    }
}

fn named_method(host: &mut Host, on: Value, key: Value) -> Result<Option<Callee>, Stop>
    ensures forest { host.new.arena ≡ host.old.arena }
{
    let word = key_word(host, key)?;
    method(host, on, word)
}

// What a call of the method under a key calls on a list: its item, where the key is a number.
fn list_method_at(host: &mut Host, list: ListId, key: Value) -> Result<Option<Callee>, Stop>
    ensures forest { host.new.arena ≡ host.old.arena }
{
    match key {
        Value::Whole(index) => item_callee(host, list, index),
        _ => named_method(host, Value::List(list), key),
    }
}

/// What a call of the method named by a key that was computed calls on a value. BadOperand: the key
/// is neither a text nor a number.
pub fn method_at_key(host: &mut Host, on: Value, key: Value) -> Result<Option<Callee>, Stop>
    ensures forest { host.new.arena ≡ host.old.arena }
{
    match on {
        Value::List(list) => list_method_at(host, list, key),
        _ => named_method(host, on, key),
    }
}

fn value(value: Value) -> Result<Called, Stop> {
    Ok(Called::Value(value))
}

// `find` and `closest`, which take a type and a filter.
fn seek(
    host: &mut Host,
    on: CollectionId,
    below: bool,
    arguments: &[Value],
    fuel: &mut u64,
) -> Result<Called, Stop>
    ensures fuel { fuel.new ≤ fuel.old }
    ensures nodes { length host.old.arena.forest.nodes ≤ length host.new.arena.forest.nodes }
    ensures places { length host.old.arena.forest.places ≤ length host.new.arena.forest.places }
{
    let named = type_of(argument(arguments, 0))?;
    let filter = filter_of(host.alloc, &host.heap, argument(arguments, 1))?;
    if let Filter::Function(function) = filter {
        return begin_seek(host, on, below, named, function, *fuel);
    }
    if below {
        return value(find(host, on, &Wanted { named, filter }, fuel)?);
    }
    let sought = Sought::Nodes(Wanted { named, filter });
    value(closest(host, on, &sought, fuel)?)
}

fn begin_seek(
    host: &mut Host,
    on: CollectionId,
    below: bool,
    named: NodeType,
    function: Value,
    fuel: u64,
) -> Result<Called, Stop>
    ensures forest { host.new.arena ≡ host.old.arena }
{
    if below {
        begin_find(host, on, named, function, fuel)?;
    } else {
        begin_paths(host, on, Task::Closest(named), function)?;
    }
    Ok(Called::Walk)
}

fn begin_each(
    host: &mut Host,
    on: CollectionId,
    task: Task,
    arguments: &[Value],
) -> Result<Called, Stop>
    ensures forest { host.new.arena ≡ host.old.arena }
{
    begin_paths(host, on, task, argument(arguments, 0))?;
    Ok(Called::Walk)
}

// A change at each path with nodes, or with what a function answers.
fn change_each(
    host: &mut Host,
    on: CollectionId,
    change: Change,
    arguments: &[Value],
    fuel: &mut u64,
) -> Result<Called, Stop>
    ensures fuel { fuel.new ≤ fuel.old }
    ensures nodes { length host.old.arena.forest.nodes ≤ length host.new.arena.forest.nodes }
    ensures places { length host.old.arena.forest.places ≤ length host.new.arena.forest.places }
{
    let nodes = argument(arguments, 0);
    if is_function(&nodes) {
        begin_changes(host, on, change, nodes)?;
        return Ok(Called::Walk);
    }
    value(change_paths(host, on, change, nodes, fuel)?)
}

fn call_on_collection(
    host: &mut Host,
    on: CollectionId,
    method: CollectionMethod,
    arguments: &[Value],
    fuel: &mut u64,
) -> Result<Called, Stop>
    ensures fuel { fuel.new ≤ fuel.old }
    ensures nodes { length host.old.arena.forest.nodes ≤ length host.new.arena.forest.nodes }
    ensures places { length host.old.arena.forest.places ≤ length host.new.arena.forest.places }
{
    match method {
        CollectionMethod::Find => seek(host, on, true, arguments, fuel),
        CollectionMethod::Closest => seek(host, on, false, arguments, fuel),
        CollectionMethod::Filter => begin_each(host, on, Task::FilterPaths, arguments),
        CollectionMethod::ForEach => begin_each(host, on, Task::EachPath, arguments),
        CollectionMethod::Map => begin_each(host, on, Task::MapPaths, arguments),
        CollectionMethod::Some => begin_each(host, on, Task::SomePath, arguments),
        CollectionMethod::Every => begin_each(host, on, Task::EveryPath, arguments),
        CollectionMethod::Size => value(size(host, on, fuel)?),
        CollectionMethod::At => value(at(host, on, arguments, fuel)?),
        CollectionMethod::Get => value(get_along(host, on, arguments, fuel)?),
        CollectionMethod::Paths => value(paths(host, on, fuel)?),
        CollectionMethod::Nodes => value(nodes(host, on, fuel)?),
        CollectionMethod::ClosestScope => value(closest(host, on, &Sought::Scopes, fuel)?),
        CollectionMethod::ReplaceWith => change_each(host, on, Change::Replace, arguments, fuel),
        CollectionMethod::InsertBefore => change_each(host, on, Change::Before, arguments, fuel),
        CollectionMethod::InsertAfter => change_each(host, on, Change::After, arguments, fuel),
        CollectionMethod::Remove => value(remove_paths(host, on, fuel)?),
        CollectionMethod::IsOfType => value(is_of_type(host, on, arguments, fuel)?),
        CollectionMethod::ToSource => value(to_source(host, on, fuel)?),
    }
}

// Whether a value is a node of the type.
fn is_node_of(host: &Host, named: NodeType, value: Value) -> Result<bool, Stop> {
    let Value::Node(node) = value else {
        return Ok(false);
    };
    Ok(is_a(kind_at(&host.arena, node)?, named))
}

const NO_METHOD: Stop = Stop::Fault(Fault::NoMethod);

fn call_collection(
    host: &mut Host,
    on: Value,
    method: CollectionMethod,
    arguments: &[Value],
    fuel: &mut u64,
) -> Result<Called, Stop>
    ensures fuel { fuel.new ≤ fuel.old }
    ensures nodes { length host.old.arena.forest.nodes ≤ length host.new.arena.forest.nodes }
    ensures places { length host.old.arena.forest.places ≤ length host.new.arena.forest.places }
{
    match on {
        Value::Collection(on) => call_on_collection(host, on, method, arguments, fuel),
        _ => Err(NO_METHOD),
    }
}

fn call_on_path(
    host: &mut Host,
    on: Value,
    method: PathMethod,
    arguments: &[Value],
    fuel: &mut u64,
) -> Result<Called, Stop>
    ensures fuel { fuel.new ≤ fuel.old }
    ensures nodes { length host.old.arena.forest.nodes ≤ length host.new.arena.forest.nodes }
    ensures places { length host.old.arena.forest.places ≤ length host.new.arena.forest.places }
{
    match on {
        Value::Path(on) => value(call_path(host, on, method, arguments, fuel)?),
        _ => Err(NO_METHOD),
    }
}

fn call_on_scope(
    host: &mut Host,
    on: Value,
    method: ScopeMethod,
    arguments: &[Value],
    fuel: &mut u64,
) -> Result<Called, Stop>
    ensures fuel { fuel.new ≤ fuel.old }
    ensures forest { host.new.arena ≡ host.old.arena }
{
    match on {
        Value::Scope(on) => value(call_scope(host, on, method, arguments, fuel)?),
        _ => Err(NO_METHOD),
    }
}

fn call_on_text(
    host: &mut Host,
    on: Value,
    method: TextMethod,
    arguments: &[Value],
    fuel: &mut u64,
) -> Result<Called, Stop>
    ensures fuel { fuel.new ≤ fuel.old }
    ensures forest { host.new.arena ≡ host.old.arena }
{
    match on {
        Value::Text(text) => value(call_text(host, text, method, arguments, fuel)?),
        _ => Err(NO_METHOD),
    }
}

fn check(host: &Host, on: Value, arguments: &[Value]) -> Result<Called, Stop> {
    match on {
        Value::Type(named) => value(Value::Truth(is_node_of(host, named, argument(arguments, 0))?)),
        _ => Err(NO_METHOD),
    }
}

fn call_items(
    host: &mut Host,
    on: Value,
    method: ListMethod,
    arguments: &[Value],
    fuel: &mut u64,
) -> Result<Value, Stop>
    ensures fuel { fuel.new ≤ fuel.old }
    ensures nodes { length host.old.arena.forest.nodes ≤ length host.new.arena.forest.nodes }
    ensures places { length host.old.arena.forest.places ≤ length host.new.arena.forest.places }
{
    match on {
        Value::List(list) => call_list(host, list, method, arguments, fuel),
        Value::NodeList(node, slot) => call_node_list(host, node, slot, method, arguments, fuel),
        _ => Err(NO_METHOD),
    }
}

/// Calls a method. The call's own unit was taken before. NoMethod: the value is of a sort that does
/// not have it.
pub fn call(
    host: &mut Host,
    on: Value,
    method: Method,
    arguments: &[Value],
    fuel: &mut u64,
) -> Result<Called, Stop>
    ensures fuel { fuel.new ≤ fuel.old }
    ensures nodes { length host.old.arena.forest.nodes ≤ length host.new.arena.forest.nodes }
    ensures places { length host.old.arena.forest.places ≤ length host.new.arena.forest.places }
{
    match method {
        Method::Collection(method) => call_collection(host, on, method, arguments, fuel),
        Method::Path(method) => call_on_path(host, on, method, arguments, fuel),
        Method::Scope(method) => call_on_scope(host, on, method, arguments, fuel),
        Method::Check => check(host, on, arguments),
        Method::Text(method) => call_on_text(host, on, method, arguments, fuel),
        Method::List(method) => value(call_items(host, on, method, arguments, fuel)?),
        Method::Items(method) => {
            begin_items(host, on, method, arguments)?;
            Ok(Called::Walk)
        }
    }
}

fn call_match(host: &mut Host, arguments: &[Value], fuel: &mut u64) -> Result<Called, Stop>
    ensures fuel { fuel.new ≤ fuel.old }
    ensures nodes { length host.old.arena.forest.nodes ≤ length host.new.arena.forest.nodes }
    ensures places { length host.old.arena.forest.places ≤ length host.new.arena.forest.places }
{
    let (node, filter) = match_parts(host, arguments)?;
    if let Filter::Function(function) = filter {
        begin_match(host, node, function)?;
        return Ok(Called::Walk);
    }
    value(match_node(host, node, &filter, fuel)?)
}

/// Calls a native function. The call's own unit was taken before.
pub fn call_native(
    host: &mut Host,
    native: Native,
    arguments: &[Value],
    fuel: &mut u64,
) -> Result<Called, Stop>
    ensures fuel { fuel.new ≤ fuel.old }
    ensures nodes { length host.old.arena.forest.nodes ≤ length host.new.arena.forest.nodes }
    ensures places { length host.old.arena.forest.places ≤ length host.new.arena.forest.places }
{
    match native {
        Native::Jscodeshift => value(call_j(host, arguments)?),
        Native::Builder(kind) => value(call_builder(host, kind, arguments, fuel)?),
        Native::Match => call_match(host, arguments, fuel),
        Native::CommentLine => value(make_comment(host, false, arguments)?),
        Native::CommentBlock => value(make_comment(host, true, arguments)?),
    }
}
