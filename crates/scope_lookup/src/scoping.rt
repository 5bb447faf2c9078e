//! Which declarations below a scope's owner are the scope's, and how that changes on the way down.

ghost use Rattle.std.specs.Prelude.{◌≡◌, ◌<◌, length};
ghost use Rattle.std.specs.Option.{option_copied};
ghost use Rattle.scope_lookup.specs.Scopings.{binding, blocked, declares, is_nothing, scoping_below, nothing, own_scoping, within};

use crate::node_roles::{scope_kind_at, text_of};
use crate::role::{ScopeKind, slot_role};
use crate::scope::Scope;
use node_arena::{Arena, NodeId};
use tree_core::Units;

/// The word `var` in code units.
const VAR: [u16; 3] = [118, 97, 114];

/// The word `let` in code units.
const LET: [u16; 3] = [108, 101, 116];

/// The word `const` in code units.
const CONST: [u16; 5] = [99, 111, 110, 115, 116];

/// Which declarations at a place are the scope's.
#[derive(Clone, Copy, Debug, PartialEq, Eq)]
pub struct Scoping {
    /// An Identifier here declares its name in the scope.
    pub binds: bool,
    /// `let`, `const`, classes, functions and imports here are the scope's.
    pub lexical: bool,
    /// `var` here is the scope's.
    pub hoisted: bool,
}

impl Scoping {
    fn nothing() -> Scoping
        ensures { result ≡ nothing }
    {
        Scoping {
            binds: false,
            lexical: false,
            hoisted: false,
        }
    }

    /// Nothing below is the scope's.
    pub fn is_nothing(self) -> bool
        ensures { result ≡ is_nothing self }
    {
        !self.binds && !self.lexical && !self.hoisted
    }

    fn blocked(self) -> Scoping
        ensures { result ≡ blocked self }
    {
        Scoping {
            lexical: false,
            ..self
        }
    }

    fn binding(self, binds: bool) -> Scoping
        ensures { result ≡ binding binds self }
    {
        Scoping { binds, ..self }
    }
}

/// Which declarations are the scope's in a slot of its owner.
pub fn own_scoping(arena: &Arena, scope: &Scope, slot: u8) -> Scoping
    requires { scope.now.owner < length arena.now.forest.nodes }
    ensures { result ≡ own_scoping arena.now.forest scope.now slot }
{
    let role = slot_role(arena.kind(scope.owner), slot);
    if scope.name {
        return Scoping::nothing().binding(role.is_own_name());
    }
    let kind = scope_kind_at(arena, scope.owner);
    if !kind.is_scope() {
        return Scoping::nothing();
    }
    if role.is_own_name() || role.is_declared() {
        return Scoping::nothing();
    }
    Scoping {
        binds: role.is_parameter(),
        lexical: true,
        hoisted: kind.is_var_scope(),
    }
}

/// Which of the scope's declarations may stand in a node that has a scope of the kind.
fn within(scoping: Scoping, kind: ScopeKind) -> Scoping
    ensures { result ≡ within scoping kind }
{
    match kind {
        ScopeKind::NoScope => scoping,
        ScopeKind::Block => scoping.blocked(),
        ScopeKind::Lexical => scoping.blocked(),
        ScopeKind::Var => Scoping::nothing(),
    }
}

/// Whether the declarations of this word are the scope's.
fn declares(scoping: Scoping, word: Option<&Units>) -> bool
    ensures { result ≡ declares scoping (option_copied word.entry) }
{
    let Some(word) = word else {
        return false;
    };
    let word = word.get();
    if word == VAR.as_slice() {
        return scoping.hoisted;
    }
    if word == LET.as_slice() || word == CONST.as_slice() {
        return scoping.lexical;
    }
    false
}

/// Which declarations are the scope's in a slot of a node below its owner, where `scoping` says it
/// of the node.
pub fn scoping_below(arena: &Arena, node: NodeId, slot: u8, scoping: Scoping) -> Scoping
    requires { node < length arena.now.forest.nodes }
    ensures { result ≡ scoping_below arena.now node slot scoping }
{
    let role = slot_role(arena.kind(node), slot);
    if role.is_declared() {
        return scoping.binding(scoping.lexical);
    }
    if role.is_own_name() {
        return scoping.binding(false);
    }
    if role.is_part() {
        return scoping;
    }
    if role.is_variable() {
        return scoping.binding(declares(scoping, text_of(arena, node)));
    }
    within(scoping, scope_kind_at(arena, node)).binding(false)
}
