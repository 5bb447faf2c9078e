//! The lists of the source after which the lists of the changed tree are written.
//!
//! A list of a node that comes from the source is written as the node's own list was. Another one may
//! adopt the list from which its first item comes, where nothing else is written after that. Each item
//! may sit where an item of that list sat.

use crate::loose::{loosen_all, units_all};
use crate::spots::{Spot, origin_at, origins_of, spot_of};
use generic_printer::Row;
use piece_plan::{Marks, SourceTree, place_at, truth_at};
use source_layout::{
    FileFacts, Style, Unit, facts_of, first_item, holder, is_line_list, is_list_item, list_slot,
    position, style_of,
};
use std::alloc::{AllocError, Global};
use type_defs::Kind;

/// The source list after which a list is written: that of this node, which may be its own.
#[derive(Clone, Copy, Debug, PartialEq, Eq)]
pub struct Model {
    pub owner: usize,
    pub own: bool,
}

/// A list of properties without a model that stands in lines.
#[derive(Clone, Copy, Debug, PartialEq, Eq)]
pub struct Loose {
    pub trailing_comma: bool,
}

/// How the lists of the rows are laid out.
#[derive(Drop)]
pub struct Models {
    pub facts: FileFacts,
    /// Of each row, the model of its list.
    pub models: Vec<Option<Model>>,
    /// Of each row, the item of the model at which it sits.
    pub seats: Vec<Option<usize>>,
    /// Of each row, the first source node in it.
    pub origins: Vec<Option<usize>>,
    /// Of each row, the unit of the lists in it.
    pub units: Vec<Option<Unit>>,
    pub broken: Vec<bool>,
    pub loose: Vec<Option<Loose>>,
    /// Of each node of the source, the row in whose list an item sits there, counted from 1.
    taken: Vec<usize>,
    /// Of each node of the source, the number of its list's style, counted from 1.
    styled: Vec<usize>,
    styles: Vec<Style>,
}

impl Models {
    pub fn model(&self, row: usize) -> Option<Model> {
        match self.models.get(row) {
            Some(model) => *model,
            None => None,
        }
    }

    pub fn seat(&self, row: usize) -> Option<usize> {
        match self.seats.get(row) {
            Some(seat) => *seat,
            None => None,
        }
    }

    pub fn loose(&self, row: usize) -> Option<Loose> {
        match self.loose.get(row) {
            Some(loose) => *loose,
            None => None,
        }
    }

    pub fn unit(&self, row: usize) -> Option<Unit> {
        match self.units.get(row) {
            Some(unit) => *unit,
            None => None,
        }
    }

    /// Whether an item of the row's list sits at the item of the source.
    pub fn is_taken(&self, row: usize, item: usize) -> bool {
        match self.taken.get(item) {
            Some(taker) => *taker == row.saturating_add(1),
            None => false,
        }
    }

    /// The style of the list of this source node, where one of its items is in hand.
    pub fn style(&self, owner: usize) -> Option<Style> {
        let number = match self.styled.get(owner) {
            Some(number) => number.checked_sub(1)?,
            None => return None,
        };
        match self.styles.get(number) {
            Some(style) => Some(*style),
            None => None,
        }
    }

    /// The style of the row's model.
    pub fn model_style(&self, row: usize) -> Option<Style> {
        self.style(self.model(row)?.owner)
    }

    fn take(&mut self, row: usize, child: usize, item: Option<usize>) {
        let Some(item) = item else {
            return;
        };
        if self.seat(child).is_some() || self.is_taken(row, item) {
            return;
        }
        if child < self.seats.len() {
            self.seats[child] = Some(item);
        }
        if item < self.taken.len() {
            self.taken[item] = row.saturating_add(1);
        }
    }
}

/// What the models are made of.
#[derive(Clone, Copy)]
pub struct Modelling<'m, 'a, 's> {
    pub alloc: Global,
    pub source: &'m SourceTree<'s>,
    pub marks: &'m Marks,
    pub rows: &'m [Row<'a>],
    pub tab: u8,
    pub trailing_comma: bool,
}

/// The row of this number, where it is no first row's.
pub fn child_row<'a>(rows: &[Row<'a>], at: usize) -> Option<Row<'a>> {
    if at == 0 {
        return None;
    }
    match rows.get(at) {
        Some(row) => Some(*row),
        None => None,
    }
}

// Makes sure that the style of the list of this source node is there.
fn see_style(
    models: &mut Models,
    modelling: Modelling<'_, '_, '_>,
    owner: usize,
) -> Result<(), AllocError> {
    if owner >= models.styled.len() || models.styled[owner] != 0 {
        return Ok(());
    }
    let style = style_of(modelling.alloc, modelling.source, owner)?;
    models.styles.push(style)?;
    let number = models.styles.len();
    if owner < models.styled.len() {
        models.styled[owner] = number;
    }
    Ok(())
}

// The styles of the lists from which the row may be.
fn see_row(
    models: &mut Models,
    modelling: Modelling<'_, '_, '_>,
    at: usize,
    row: Row<'_>,
) -> Result<(), AllocError> {
    if let Some(number) = modelling.source.source_of(row.node) {
        if let Some(owner) = position(modelling.source, number) {
            see_style(models, modelling, owner)?;
        }
        if !row.kept && list_slot(row.node.kind).is_some() {
            see_style(models, modelling, number)?;
        }
    }
    match spot_of(
        modelling.source,
        row,
        origin_at(models.origins.as_slice(), at),
    ) {
        Some(spot) => see_style(models, modelling, spot.owner),
        None => Ok(()),
    }
}

// Whether the source node's list has items.
fn has_items(source: &SourceTree<'_>, number: usize) -> bool {
    first_item(source, number).is_some()
}

// The node's own list in the source, where that has items.
fn own_model(source: &SourceTree<'_>, row: Row<'_>) -> Option<Model> {
    let owner = source.source_of(row.node)?;
    let there = source.node(owner)?;
    if list_slot(there.node.kind).is_none()
        || list_slot(there.node.kind) != list_slot(row.node.kind)
        || is_line_list(there.node.kind) != is_line_list(row.node.kind)
        || !has_items(source, owner)
    {
        return None;
    }
    Some(Model { owner, own: true })
}

// Where the items of the row's list come from: the spot of the first that comes from the source
// itself, or of two that are made of two items of one list.
fn candidate(models: &Models, modelling: Modelling<'_, '_, '_>, row: Row<'_>) -> Option<Spot> {
    let mut made: Option<Spot> = None;
    let mut second = false;
    let mut at = row.first;
    for _turn in 0..modelling.rows.len() {
        let Some(child) = child_row(modelling.rows, at) else {
            return if second { made } else { None };
        };
        if child.listed {
            let origin = origin_at(models.origins.as_slice(), at);
            if let Some(spot) = spot_of(modelling.source, child, origin) {
                if modelling.source.source_of(child.node).is_some() {
                    return Some(spot);
                }
                second = second || is_other_item(made, spot);
                made = Some(first_spot(made, spot));
            }
        }
        at = child.next;
    }
    None
}

fn first_spot(made: Option<Spot>, spot: Spot) -> Spot {
    match made {
        Some(first) => first,
        None => spot,
    }
}

/// Whether the spot is another item of the first one's list.
pub fn is_other_item(made: Option<Spot>, spot: Spot) -> bool {
    match made {
        Some(first) => first.owner == spot.owner && first.item != spot.item,
        None => false,
    }
}

// The list that the row's list adopts.
fn adopted(
    models: &Models,
    modelling: Modelling<'_, '_, '_>,
    adopters: &[bool],
    row: Row<'_>,
) -> Option<Model> {
    let spot = candidate(models, modelling, row)?;
    let owner = modelling.source.node(spot.owner)?;
    if is_line_list(owner.node.kind) != is_line_list(row.node.kind)
        || truth_at(modelling.marks.present.as_slice(), spot.owner)
        || truth_at(adopters, spot.owner)
    {
        return None;
    }
    Some(Model {
        owner: spot.owner,
        own: false,
    })
}

fn has_list(rows: &[Row<'_>], row: Row<'_>) -> bool {
    let mut at = row.first;
    for _turn in 0..rows.len() {
        let Some(child) = child_row(rows, at) else {
            return false;
        };
        if child.listed {
            return true;
        }
        at = child.next;
    }
    false
}

// The lists that are adopted, in preorder.
fn adopt_all(models: &mut Models, modelling: Modelling<'_, '_, '_>) -> Result<(), AllocError> {
    let mut adopters = Vec::from_elem(modelling.alloc, false, modelling.source.nodes.len())?;
    for at in 0..modelling.rows.len() {
        let row = modelling.rows[at];
        if !row.kept
            && has_list(modelling.rows, row)
            && own_model(modelling.source, row).is_none()
        {
            let model = adopted(models, modelling, adopters.as_slice(), row);
            if let Some(model) = model {
                if model.owner < adopters.len() {
                    adopters[model.owner] = true;
                }
                if at < models.models.len() {
                    models.models[at] = Some(model);
                }
            }
        }
    }
    Ok(())
}

// Whether a made text of the row has a line end of a line list, by what is known of its children.
fn breaks(models: &Models, modelling: Modelling<'_, '_, '_>, at: usize, below: &[bool]) -> bool {
    let Some(found) = modelling.rows.get(at) else {
        return false;
    };
    let row = *found;
    if row.kept {
        return false;
    }
    if is_line_list(row.node.kind)
        && !matches!(row.node.kind, Kind::Program)
        && has_list(modelling.rows, row)
        && stands_in_made_lines(models, at)
    {
        return true;
    }
    any_child(modelling.rows, row, below)
}

fn stands_in_made_lines(models: &Models, at: usize) -> bool {
    match models.model(at) {
        None => true,
        Some(model) => {
            !model.own
                && match models.style(model.owner) {
                    Some(style) => style.lines,
                    None => false,
                }
        }
    }
}

fn any_child(rows: &[Row<'_>], row: Row<'_>, truths: &[bool]) -> bool {
    let mut at = row.first;
    for _turn in 0..rows.len() {
        let Some(child) = child_row(rows, at) else {
            return false;
        };
        if truth_at(truths, at) {
            return true;
        }
        at = child.next;
    }
    false
}

fn any_item(rows: &[Row<'_>], row: Row<'_>, truths: &[bool]) -> bool {
    let mut at = row.first;
    for _turn in 0..rows.len() {
        let Some(child) = child_row(rows, at) else {
            return false;
        };
        if child.listed && truth_at(truths, at) {
            return true;
        }
        at = child.next;
    }
    false
}

// Whether a short list that stands on one line in the source is written in lines.
fn is_broken(
    models: &Models,
    modelling: Modelling<'_, '_, '_>,
    row: Row<'_>,
    below: &[bool],
) -> bool {
    let Some(number) = modelling.source.source_of(row.node) else {
        return false;
    };
    if row.kept
        || !is_line_list(row.node.kind)
        || matches!(row.node.kind, Kind::Program | Kind::SwitchCase)
        || own_model(modelling.source, row).is_none()
    {
        return false;
    }
    match models.style(number) {
        Some(style) => {
            style.count > 0
                && style.count < 4
                && !style.lines
                && any_item(modelling.rows, row, below)
        }
        None => false,
    }
}

// The models of all rows, from the last row to the first.
fn choose_all(models: &mut Models, modelling: Modelling<'_, '_, '_>) -> Result<(), AllocError> {
    let count = modelling.rows.len();
    let mut below = Vec::from_elem(modelling.alloc, false, count)?;
    for behind in 0..count {
        let at = count - 1 - behind;
        let row = modelling.rows[at];
        let broken = is_broken(models, modelling, row, below.as_slice());
        choose(models, modelling, at, row, broken);
        let breaks = breaks(models, modelling, at, below.as_slice());
        if at < below.len() {
            below[at] = breaks;
        }
    }
    Ok(())
}

fn choose(
    models: &mut Models,
    modelling: Modelling<'_, '_, '_>,
    at: usize,
    row: Row<'_>,
    broken: bool,
) {
    if at < models.broken.len() {
        models.broken[at] = broken;
    }
    if at >= models.models.len() {
        return;
    }
    if broken {
        models.models[at] = None;
    } else if !row.kept {
        let own = own_model(modelling.source, row);
        if own.is_some() {
            models.models[at] = own;
        }
    }
}

// The item of the source at the place of this name.
fn item_at_name(source: &SourceTree<'_>, child: Row<'_>, owner: usize) -> Option<usize> {
    let name = child.name?;
    if name.node as usize != owner {
        return None;
    }
    let there = source.node(owner)?;
    let (slot, place) = place_at(there.node, name.child as usize)?;
    let node = match &place.node {
        Some(node) => node,
        None => return None,
    };
    if !is_list_item(there.node.kind, slot, node.kind) {
        return None;
    }
    source.source_of(node)
}

// Which pass gives out the seats.
#[derive(Clone, Copy, Debug, PartialEq, Eq)]
enum Pass {
    Name,
    Node,
    Origin,
}

// The item at which the child would sit in this pass.
fn seat_in(
    models: &Models,
    modelling: Modelling<'_, '_, '_>,
    model: Model,
    pass: Pass,
    child: Row<'_>,
    at: usize,
) -> Option<usize> {
    let source = modelling.source;
    match pass {
        Pass::Name => {
            if model.own {
                return item_at_name(source, child, model.owner);
            }
            None
        }
        Pass::Node => {
            let number = source.source_of(child.node)?;
            if position(source, number)? == model.owner {
                return Some(number);
            }
            None
        }
        Pass::Origin => {
            if source.source_of(child.node).is_some() {
                return None;
            }
            holder(
                source,
                model.owner,
                origin_at(models.origins.as_slice(), at)?,
            )
        }
    }
}

fn seat_pass(
    models: &mut Models,
    modelling: Modelling<'_, '_, '_>,
    row: usize,
    model: Model,
    pass: Pass,
) {
    let mut at = match modelling.rows.get(row) {
        Some(found) => found.first,
        None => 0,
    };
    for _turn in 0..modelling.rows.len() {
        let Some(child) = child_row(modelling.rows, at) else {
            return;
        };
        if child.listed {
            let item = seat_in(models, modelling, model, pass, child, at);
            models.take(row, at, item);
        }
        at = child.next;
    }
}

fn seat_all(models: &mut Models, modelling: Modelling<'_, '_, '_>) {
    for row in 0..modelling.rows.len() {
        if let Some(model) = models.model(row) {
            seat_pass(models, modelling, row, model, Pass::Name);
            seat_pass(models, modelling, row, model, Pass::Node);
            seat_pass(models, modelling, row, model, Pass::Origin);
        }
    }
}

fn empty_models(modelling: Modelling<'_, '_, '_>) -> Result<Models, AllocError> {
    let alloc = modelling.alloc;
    let rows = modelling.rows.len();
    let nodes = modelling.source.nodes.len();
    let facts = facts_of(alloc, modelling.source, modelling.tab)?;
    Ok(Models {
        facts,
        models: Vec::from_elem(alloc, None, rows)?,
        seats: Vec::from_elem(alloc, None, rows)?,
        origins: origins_of(alloc, modelling.source, modelling.rows)?,
        units: Vec::from_elem(alloc, facts.unit, rows)?,
        broken: Vec::from_elem(alloc, false, rows)?,
        loose: Vec::from_elem(alloc, None, rows)?,
        taken: Vec::from_elem(alloc, 0usize, nodes)?,
        styled: Vec::from_elem(alloc, 0usize, nodes)?,
        styles: Vec::new(alloc),
    })
}

/// The models of the rows, which are settled.
pub fn models_of(modelling: Modelling<'_, '_, '_>) -> Result<Models, AllocError> {
    let mut models = empty_models(modelling)?;
    for at in 0..modelling.rows.len() {
        see_row(&mut models, modelling, at, modelling.rows[at])?;
    }
    adopt_all(&mut models, modelling)?;
    choose_all(&mut models, modelling)?;
    seat_all(&mut models, modelling);
    loosen_all(&mut models, modelling);
    units_all(&mut models, modelling)?;
    Ok(models)
}
