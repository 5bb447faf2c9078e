//! Methods of scopes. Each scope that is looked at costs a unit for each node below its owner.

ghost use Rattle.std.specs.Prelude.{◌≤◌, ◌≡◌};

use crate::arguments::{argument, name_of};
use host_fields::{Host, ScopeMethod, known_node, push};
use node_arena::{Arena, NodeId};
use scope_lookup::{Binding, Scope, bindings, declares, outer};
use script_values::{ObjectId, Stop, Value, take};
use std::alloc::Global;
use tree_core::Units;

// A unit for each node below the owner of a scope.
fn take_scope(arena: &Arena, owner: NodeId, fuel: &mut u64) -> Result<(), Stop>
    ensures fuel { fuel.new ≤ fuel.old }
{
    let owner = known_node(arena, owner)?;
    let size = arena.size(owner);
    take(fuel, u64::from(size.nodes.saturating_sub(1)))
}

// Whether the scope itself declares the name.
fn has_name(alloc: Global, arena: &Arena, scope: &Scope, name: &Units) -> Result<bool, Stop> {
    let owner = known_node(arena, scope.owner)?;
    let scope = Scope {
        owner,
        name: scope.name,
    };
    Ok(declares(alloc, arena, &scope, name)?)
}

// The scope around a scope.
fn around(arena: &Arena, scope: &Scope) -> Result<Option<Scope>, Stop> {
    let owner = known_node(arena, scope.owner)?;
    let scope = Scope {
        owner,
        name: scope.name,
    };
    Ok(outer(arena, &scope))
}

fn lookup(host: &mut Host, on: Scope, arguments: &[Value], fuel: &mut u64) -> Result<Value, Stop>
    ensures fuel { fuel.new ≤ fuel.old }
    ensures forest { host.new.arena ≡ host.old.arena }
{
    let name = name_of(host.alloc, &mut host.heap, argument(arguments, 0))?;
    let mut asked = on;
    // a node has at most two scopes
    for _turn in 0..host.arena.nodes().saturating_mul(2) {
        take_scope(&host.arena, asked.owner, fuel)?;
        if has_name(host.alloc, &host.arena, &asked, &name)? {
            return Ok(Value::Scope(asked));
        }
        match around(&host.arena, &asked)? {
            None => return Ok(Value::Null),
            Some(next) => asked = next,
        }
    }
    Ok(Value::Null)
}

fn declares_name(
    host: &mut Host,
    on: Scope,
    arguments: &[Value],
    fuel: &mut u64,
) -> Result<Value, Stop>
    ensures fuel { fuel.new ≤ fuel.old }
    ensures forest { host.new.arena ≡ host.old.arena }
{
    let name = name_of(host.alloc, &mut host.heap, argument(arguments, 0))?;
    take_scope(&host.arena, on.owner, fuel)?;
    let declared = has_name(host.alloc, &host.arena, &on, &name)?;
    Ok(Value::Truth(declared))
}

// A key of an object: a name, with the list of the paths that declare it.
fn set_binding(host: &mut Host, object: ObjectId, binding: &Binding) -> Result<(), Stop>
    ensures forest { host.new.arena ≡ host.old.arena }
{
    let mut paths = Vec::new(host.alloc);
    for place in binding.places.as_slice().iter().copied() {
        push(&mut paths, Value::Path(place))?;
    }
    let list = host.heap.list(&paths)?;
    let key = host.heap.word(binding.name.get())?;
    host.heap.set_field(object, key, Value::List(list))
}

fn get_bindings(host: &mut Host, on: Scope, fuel: &mut u64) -> Result<Value, Stop>
    ensures fuel { fuel.new ≤ fuel.old }
    ensures forest { host.new.arena ≡ host.old.arena }
{
    take_scope(&host.arena, on.owner, fuel)?;
    let owner = known_node(&host.arena, on.owner)?;
    let scope = Scope {
        owner,
        name: on.name,
    };
    let all = bindings(host.alloc, &host.arena, &scope)?;
    let object = host.heap.object()?;
    for binding in all.as_slice() {
        set_binding(host, object, binding)?;
    }
    Ok(Value::Object(object))
}

/// Calls a method of a scope.
pub fn call_scope(
    host: &mut Host,
    on: Scope,
    method: ScopeMethod,
    arguments: &[Value],
    fuel: &mut u64,
) -> Result<Value, Stop>
    ensures fuel { fuel.new ≤ fuel.old }
    ensures forest { host.new.arena ≡ host.old.arena }
{
    match method {
        ScopeMethod::Lookup => lookup(host, on, arguments, fuel),
        ScopeMethod::Declares => declares_name(host, on, arguments, fuel),
        ScopeMethod::GetBindings => get_bindings(host, on, fuel),
    }
}
