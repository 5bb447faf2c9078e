//! The conversion of expressions into patterns: the tokens are the same, the kinds are others.

ghost use Rattle.std.specs.Prelude.{◌≡◌, map, reverse, Some, IfOk};
ghost use Rattle.pattern_cover.specs.Convertible.{Convertible};
ghost use Rattle.pattern_cover.specs.Frame.{frame, framed, frame_slots, frame_places, frame_row, frame_spot};
ghost use Rattle.pattern_cover.specs.Kinds.{pattern_kind};
ghost use Rattle.pattern_cover.specs.Positions as spec;
ghost use Rattle.tree_core.specs.View.{syntax, slot_view, place_view, slots_of, places_of};
ghost use Rattle.type_defs.specs.declared.kind.Kind.TheVariants as k;

use crate::facts::CoverFacts;
use sqlite_items::Items;
use std::alloc::{AllocError, Global};
use tree_core::{Place, Scalar, Scalars, Slot, Tree};
use type_defs::Kind;

/// Why an expression is no pattern.
#[derive(Clone, Copy)]
pub enum PatternError {
    NotPattern,
    NoMemory,
}

impl From<AllocError> for PatternError {
    ghost use Rattle.std.specs.Prelude.{◌≡◌};
    ghost use Rattle.pattern_cover.specs.declared.conversion.PatternError.TheVariants.{NoMemory};

    ghost from_gives = { λ _ e. e ≡ NoMemory };

    fn from(_: AllocError) -> PatternError {
        PatternError::NoMemory
    }
}

/// A place in a pattern.
#[derive(Clone, Copy, PartialEq, Eq)]
pub enum PatternPosition {
    /// A name, a pattern, or a member where nothing is declared.
    Whole,
    /// The same, but no pattern.
    Simple,
    /// The same as a whole one, perhaps with a default.
    Value,
    /// An element of an array pattern, or a parameter; the truth says whether it is the last.
    Element(bool),
    /// A property of an object pattern; the truth says whether it is the last.
    Property(bool),
}

/// What converts trees into patterns, over the function that does so with the trees below.
#[derive(Clone, Copy)]
pub struct Conversion<'m, F> {
    alloc: Global,
    /// Whether the pattern declares its names.
    binding: bool,
    facts: &'m CoverFacts,
    depth: u32,
    convert: F,
}

fn is_last(position: PatternPosition) -> bool
    ensures { result ≡ spec.is_last position }
{
    match position {
        PatternPosition::Element(last) | PatternPosition::Property(last) => last,
        _ => false,
    }
}

// Whether an AssignmentPattern may stand there.
fn takes_default(position: PatternPosition) -> bool
    ensures { result ≡ spec.takes_default position }
{
    match position {
        PatternPosition::Value | PatternPosition::Element(_) => true,
        _ => false,
    }
}

// Whether a pattern may stand there.
fn takes_pattern(position: PatternPosition) -> bool
    ensures { result ≡ spec.takes_pattern position }
{
    match position {
        PatternPosition::Whole | PatternPosition::Value | PatternPosition::Element(_) => true,
        _ => false,
    }
}

fn is_property(position: PatternPosition) -> bool
    ensures { result ≡ spec.is_property position }
{
    match position {
        PatternPosition::Property(_) => true,
        _ => false,
    }
}

// Whether it is an assignment with `=`.
fn is_plain_assignment(tree: &Tree) -> bool {
    tree.scalars.is_text_at(0, "=")
}

// Whether it is a property that is no method and no accessor: its kind is `init`.
fn is_plain_property(tree: &Tree) -> bool {
    tree.scalars.is_text_at(0, "init") && !tree.scalars.is_truth_at(1, true)
}

// The position of an item of a pattern of this kind.
fn position_of(kind: Kind, last: bool) -> PatternPosition {
    match kind {
        Kind::ObjectPattern => PatternPosition::Property(last),
        _ => PatternPosition::Element(last),
    }
}

// The places in the other order.
fn reversed(alloc: Global, mut places: Items<Place>) -> Result<Items<Place>, PatternError>
    ensures { IfOk result (λ all. reverse all ≡ places) }
{
    let mut all = Items::new(alloc);
    while let Some(place) = places.pop() {
        all.push(place)?;
    }
    Ok(all)
}

impl<
    'm,
    F: Fn(Global, Tree, bool, &CoverFacts, u32, PatternPosition) -> Result<Tree, PatternError>,
> Conversion<'m, F> {
    // The tree as its position wants it.
    fn converted(&self, tree: Tree, position: PatternPosition) -> Result<Tree, PatternError>
        requires { Convertible self.now.depth (F.pre self.now.convert) (F.post self.now.convert) }
        ensures frame { IfOk result (λ pattern. frame (syntax pattern) ≡ frame (syntax tree)) }
    {
        (self.convert)(
            self.alloc,
            tree,
            self.binding,
            self.facts,
            self.depth,
            position,
        )
    }

    fn place(&self, place: Place, position: PatternPosition) -> Result<Place, PatternError>
        requires { Convertible self.now.depth (F.pre self.now.convert) (F.post self.now.convert) }
        ensures frame { IfOk result (λ made. frame_spot (place_view made) ≡ frame_spot (place_view place)) }
    {
        let Place { name, node } = place;
        let Some(node) = node else {
            return Ok(Place { name, node: None });
        };
        let tree = self.converted(Box::into_inner(node), position)?;
        let node = Some(tree.boxed(self.alloc)?);
        Ok(Place { name, node })
    }

    // The items of a pattern of the kind.
    fn places(&self, places: Items<Place>, kind: Kind) -> Result<Items<Place>, PatternError>
        requires { Convertible self.now.depth (F.pre self.now.convert) (F.post self.now.convert) }
        ensures frames { IfOk result (λ all. map frame_spot (map place_view all) ≡ map frame_spot (map place_view places)) }
        ensures list { IfOk result (λ all. frame_places (places_of (map place_view all)) ≡ frame_places (places_of (map place_view places))) }
    {
        let mut waiting = reversed(self.alloc, places)?;
        let mut done = Items::new(self.alloc);
        while let Some(place) = waiting.pop() {
            let position = position_of(kind, waiting.is_empty());
            done.push(self.place(place, position)?)?;
        }
        Ok(done)
    }

    fn slot(&self, slot: Slot, kind: Kind, position: PatternPosition) -> Result<Slot, PatternError>
        requires { Convertible self.now.depth (F.pre self.now.convert) (F.post self.now.convert) }
        ensures frame { IfOk result (λ made. frame_row (slot_view made) ≡ frame_row (slot_view slot)) }
    {
        match slot {
            Slot::Single(place) => Ok(Slot::Single(self.place(place, position)?)),
            Slot::List(places) => Ok(Slot::List(self.places(places, kind)?)),
        }
    }

    // The slots with the last of them converted.
    fn last_slot(
        &self,
        mut slots: Items<Slot>,
        kind: Kind,
        position: PatternPosition,
    ) -> Result<Items<Slot>, PatternError>
        requires { Convertible self.now.depth (F.pre self.now.convert) (F.post self.now.convert) }
        ensures frames { IfOk result (λ all. map frame_row (map slot_view all) ≡ map frame_row (map slot_view slots)) }
    {
        if let Some(slot) = slots.pop() {
            slots.push(self.slot(slot, kind, position)?)?;
        }
        Ok(slots)
    }

    // Two slots with the first of them converted.
    fn first_slot(
        &self,
        mut slots: Items<Slot>,
        kind: Kind,
        position: PatternPosition,
    ) -> Result<Items<Slot>, PatternError>
        requires { Convertible self.now.depth (F.pre self.now.convert) (F.post self.now.convert) }
        ensures frames { IfOk result (λ all. map frame_row (map slot_view all) ≡ map frame_row (map slot_view slots)) }
    {
        let Some(right) = slots.pop() else {
            return Ok(slots);
        };
        let mut slots = self.last_slot(slots, kind, position)?;
        slots.push(right)?;
        Ok(slots)
    }

    // The node of the kind with these scalars, its last slot converted.
    fn over_last(
        &self,
        tree: Tree,
        kind: Kind,
        scalars: Scalars,
        position: PatternPosition,
    ) -> Result<Tree, PatternError>
        requires { Convertible self.now.depth (F.pre self.now.convert) (F.post self.now.convert) }
        ensures frame { IfOk result (λ pattern. frame (syntax pattern) ≡ frame (syntax tree)) }
        ensures kind { IfOk result (λ pattern. pattern.kind ≡ kind) }
    {
        let Tree { slots, from, .. } = tree;
        let slots = self.last_slot(slots, kind, position)?;
        Ok(self.made(kind, scalars, slots, from))
    }

    // The node of the kind with these scalars, the first of its two slots converted.
    fn over_first(
        &self,
        tree: Tree,
        kind: Kind,
        scalars: Scalars,
        position: PatternPosition,
    ) -> Result<Tree, PatternError>
        requires { Convertible self.now.depth (F.pre self.now.convert) (F.post self.now.convert) }
        ensures frame { IfOk result (λ pattern. frame (syntax pattern) ≡ frame (syntax tree)) }
        ensures kind { IfOk result (λ pattern. pattern.kind ≡ kind) }
    {
        let Tree { slots, from, .. } = tree;
        let slots = self.first_slot(slots, kind, position)?;
        Ok(self.made(kind, scalars, slots, from))
    }

    fn made(&self, kind: Kind, scalars: Scalars, slots: Items<Slot>, from: Option<u32>) -> Tree
        ensures frame { frame (syntax result) ≡ framed from (frame_slots (slots_of (map slot_view slots))) }
        ensures kind { result.kind ≡ kind }
    {
        let mut tree = Tree::new(kind, scalars, slots);
        tree.from = from;
        tree
    }

    // A property of an object pattern.
    fn property(&self, tree: Tree) -> Result<Tree, PatternError>
        requires { Convertible self.now.depth (F.pre self.now.convert) (F.post self.now.convert) }
        ensures frame { IfOk result (λ pattern. frame (syntax pattern) ≡ frame (syntax tree)) }
        ensures kind { IfOk result (λ pattern. pattern.kind ≡ k.AssignmentProperty) }
    {
        if !is_plain_property(&tree) {
            return Err(PatternError::NotPattern);
        }
        let shorthand = tree.scalars.is_truth_at(2, true);
        let computed = tree.scalars.is_truth_at(3, true);
        self.assigned_property(tree, shorthand, computed)
    }

    fn assigned_property(
        &self,
        tree: Tree,
        shorthand: bool,
        computed: bool,
    ) -> Result<Tree, PatternError>
        requires { Convertible self.now.depth (F.pre self.now.convert) (F.post self.now.convert) }
        ensures frame { IfOk result (λ pattern. frame (syntax pattern) ≡ frame (syntax tree)) }
        ensures kind { IfOk result (λ pattern. pattern.kind ≡ k.AssignmentProperty) }
    {
        let scalars = Scalars::one(Scalar::Truth(shorthand)).with(
            self.alloc,
            Scalar::Truth(computed),
        )?;
        self.over_last(
            tree,
            Kind::AssignmentProperty,
            scalars,
            PatternPosition::Value,
        )
    }

    // The rest of a pattern: it is the last, and no comma follows.
    fn rest(&self, tree: Tree, position: PatternPosition) -> Result<Tree, PatternError>
        requires { Convertible self.now.depth (F.pre self.now.convert) (F.post self.now.convert) }
        ensures frame { IfOk result (λ pattern. frame (syntax pattern) ≡ frame (syntax tree)) }
        ensures kind { IfOk result (λ pattern. pattern.kind ≡ k.RestElement) }
    {
        if !is_last(position) || self.facts.has_comma(&tree) {
            return Err(PatternError::NotPattern);
        }
        let inner = if is_property(position) {
            PatternPosition::Simple
        } else {
            PatternPosition::Whole
        };
        self.over_last(tree, Kind::RestElement, Scalars::new(), inner)
    }

    fn list(&self, tree: Tree, kind: Kind, position: PatternPosition) -> Result<Tree, PatternError>
        requires { Convertible self.now.depth (F.pre self.now.convert) (F.post self.now.convert) }
        ensures frame { IfOk result (λ pattern. frame (syntax pattern) ≡ frame (syntax tree)) }
        ensures kind { IfOk result (λ pattern. pattern.kind ≡ kind) }
    {
        if !takes_pattern(position) || self.facts.is_grouped(&tree) {
            return Err(PatternError::NotPattern);
        }
        self.over_last(tree, kind, Scalars::new(), PatternPosition::Whole)
    }

    fn defaulted(&self, tree: Tree, position: PatternPosition) -> Result<Tree, PatternError>
        requires { Convertible self.now.depth (F.pre self.now.convert) (F.post self.now.convert) }
        ensures frame { IfOk result (λ pattern. frame (syntax pattern) ≡ frame (syntax tree)) }
        ensures kind { IfOk result (λ pattern. pattern.kind ≡ k.AssignmentPattern) }
    {
        if !takes_default(position) || self.facts.is_grouped(&tree) {
            return Err(PatternError::NotPattern);
        }
        self.over_first(
            tree,
            Kind::AssignmentPattern,
            Scalars::new(),
            PatternPosition::Whole,
        )
    }

    // A name or a member.
    fn simple(
        &self,
        tree: Tree,
        position: PatternPosition,
        fits: bool,
    ) -> Result<Tree, PatternError>
        ensures frame { IfOk result (λ pattern. frame (syntax pattern) ≡ frame (syntax tree)) }
        ensures kind { IfOk result (λ pattern. pattern.kind ≡ tree.kind) }
    {
        if fits && !is_property(position) {
            return Ok(tree);
        }
        Err(PatternError::NotPattern)
    }

    fn whole(&self, tree: Tree, position: PatternPosition) -> Result<Tree, PatternError>
        requires { Convertible self.now.depth (F.pre self.now.convert) (F.post self.now.convert) }
        ensures frame { IfOk result (λ pattern. frame (syntax pattern) ≡ frame (syntax tree)) }
        ensures kind { IfOk result (λ pattern. pattern_kind tree.kind ≡ Some pattern.kind) }
    {
        match tree.kind {
            Kind::Identifier => {
                let fits = !self.binding || !self.facts.is_grouped(&tree);
                self.simple(tree, position, fits)
            }
            Kind::MemberExpression => self.simple(tree, position, !self.binding),
            Kind::ArrayExpression | Kind::ArrayPattern => {
                self.list(tree, Kind::ArrayPattern, position)
            }
            Kind::ObjectExpression | Kind::ObjectPattern => {
                self.list(tree, Kind::ObjectPattern, position)
            }
            Kind::AssignmentExpression => {
                if !is_plain_assignment(&tree) {
                    return Err(PatternError::NotPattern);
                }
                self.defaulted(tree, position)
            }
            Kind::AssignmentPattern => self.defaulted(tree, position),
            Kind::SpreadElement | Kind::RestElement => self.rest(tree, position),
            Kind::Property => {
                if !is_property(position) {
                    return Err(PatternError::NotPattern);
                }
                self.property(tree)
            }
            Kind::AssignmentProperty => {
                let shorthand = tree.scalars.is_truth_at(0, true);
                let computed = tree.scalars.is_truth_at(1, true);
                self.assigned_property(tree, shorthand, computed)
            }
            _ => Err(PatternError::NotPattern),
        }
    }
}

// The tree as its position in a pattern wants it, with no more than `depth` nodes nested.
fn convert(
    alloc: Global,
    tree: Tree,
    binding: bool,
    facts: &CoverFacts,
    depth: u32,
    position: PatternPosition,
) -> Result<Tree, PatternError>
    ensures frame { IfOk result (λ pattern. frame (syntax pattern) ≡ frame (syntax tree)) }
    ensures kind { IfOk result (λ pattern. pattern_kind tree.kind ≡ Some pattern.kind) }
{
    if depth == 0 {
        return Err(PatternError::NotPattern);
    }
    let depth = depth - 1;
    Conversion {
        alloc,
        binding,
        facts,
        depth,
        convert,
    }
    .whole(tree, position)
}

/// The pattern that the tokens of an array or an object spell; with `binding` it declares its names.
/// Each node keeps its number and its place. Where no pattern is spelled, or more than `levels` of
/// its nodes nest, it is refused.
pub fn to_pattern(
    alloc: Global,
    tree: Tree,
    binding: bool,
    facts: &CoverFacts,
    levels: u32,
) -> Result<Tree, PatternError>
    ensures frame { IfOk result (λ pattern. frame (syntax pattern) ≡ frame (syntax tree)) }
    ensures kind { IfOk result (λ pattern. pattern_kind tree.kind ≡ Some pattern.kind) }
{
    convert(alloc, tree, binding, facts, levels, PatternPosition::Whole)
}

/// The parameters that the tokens of these expressions spell. Each node keeps its number and its
/// place. Where no parameters are spelled, or more than `levels` of the nodes of one nest, they are
/// refused.
pub fn parameters(
    alloc: Global,
    places: Items<Place>,
    facts: &CoverFacts,
    levels: u32,
) -> Result<Items<Place>, PatternError>
    ensures frames { IfOk result (λ all. map frame_spot (map place_view all) ≡ map frame_spot (map place_view places)) }
{
    Conversion {
        alloc,
        binding: true,
        facts,
        depth: levels,
        convert,
    }
    .places(places, Kind::ArrayPattern)
}
