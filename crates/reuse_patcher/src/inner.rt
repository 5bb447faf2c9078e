//! The piece between two items of a list.

use crate::fronts::Shift;
use crate::laying::{Gaps, Hand, Item, Laying, NO_SHIFT, Side, What, item_gap};
use crate::models::child_row;
use crate::spots::{Spot, origin_at, spot_of};
use generic_printer::Row;
use piece_plan::SourceTree;
use source_layout::{
    GapName, MainRun, Style, first_item, holder, is_line_list, main_run, next_item, previous_item,
    stands_first,
};
use std::alloc::AllocError;
use tree_core::Tree;
use type_defs::Kind;

/// What parts two items of a list.
#[derive(Clone, Copy)]
pub struct Parting {
    /// The run of the source that is written between them, the shift of its lines.
    pub main: Option<MainRun>,
    pub shift: Shift,
    /// Whether a line ends between them where no run is chosen, and how many do.
    pub broken: bool,
    pub lines: usize,
    pub commas_first: bool,
    /// The run after which items on one line are written.
    pub flat: Option<MainRun>,
    /// The run that commas written first have behind them.
    pub pattern: Option<MainRun>,
    /// Whether the right item has a seat.
    pub seated: bool,
    pub lined: bool,
}

// The source list's gap that is chosen, with the list's node.
#[derive(Clone, Copy)]
struct Chosen {
    name: GapName,
    owner: usize,
}

// What choosing goes by.
#[derive(Clone, Copy)]
struct Pair<'a> {
    at: usize,
    row: Row<'a>,
    left: usize,
    right: usize,
    lined: bool,
    lines: bool,
    ends_in_line_comment: bool,
}

fn chosen_before(laying: Laying<'_, '_, '_>, item: usize, owner: usize) -> Option<Chosen> {
    Some(Chosen {
        name: item_gap(laying, item, Hand::Before)?,
        owner,
    })
}

// How many lines the gap parts, for this list.
fn count_of(pair: Pair<'_>, main: MainRun) -> usize {
    if main.lines == 1
        && main.follows_line_comment
        && !pair.lines
        && !pair.lined
        && !pair.ends_in_line_comment
    {
        return 0;
    }
    main.lines
}

fn main_of<'s>(
    laying: Laying<'_, '_, 's>,
    gaps: &mut Gaps<'s>,
    name: GapName,
) -> Result<Option<MainRun>, AllocError> {
    let number = gaps.number(laying, name)?;
    match gaps.get(Some(number)) {
        Some(gap) => Ok(Some(main_run(laying.text(), gap))),
        None => Ok(None),
    }
}

fn counted<'s>(
    laying: Laying<'_, '_, 's>,
    gaps: &mut Gaps<'s>,
    pair: Pair<'_>,
    found: Option<Chosen>,
) -> Result<usize, AllocError> {
    let Some(found) = found else {
        return Ok(0);
    };
    match main_of(laying, gaps, found.name)? {
        Some(main) => Ok(count_of(pair, main)),
        None => Ok(0),
    }
}

fn source_number(laying: Laying<'_, '_, '_>, at: usize) -> Option<usize> {
    laying
        .reuse
        .source
        .source_of(child_row(laying.rows, at)?.node)
}

fn spot_at(laying: Laying<'_, '_, '_>, at: usize) -> Option<Spot> {
    spot_of(
        laying.reuse.source,
        child_row(laying.rows, at)?,
        origin_at(laying.models.origins.as_slice(), at),
    )
}

// The item of the list at which the row stands in the source, or in whose text it is made.
fn stands_at(laying: Laying<'_, '_, '_>, owner: usize, at: usize) -> Option<usize> {
    match source_number(laying, at) {
        Some(number) => {
            if source_layout::position(laying.reuse.source, number)? == owner {
                return Some(number);
            }
            None
        }
        None => holder(
            laying.reuse.source,
            owner,
            origin_at(laying.models.origins.as_slice(), at)?,
        ),
    }
}

fn is_lined_owner(source: &SourceTree<'_>, owner: usize) -> bool {
    match source.node(owner) {
        Some(node) => is_line_list(node.node.kind),
        None => false,
    }
}

// Of two neighbours in a line list of the source, or made of such: the gap between these.
fn neighbouring(laying: Laying<'_, '_, '_>, pair: Pair<'_>) -> Option<Chosen> {
    let source = laying.reuse.source;
    let made = source_number(laying, pair.left).is_none()
        || source_number(laying, pair.right).is_none();
    if let Some(spot) = spot_at(laying, pair.right) {
        if is_lined_owner(source, spot.owner) || made {
            let before = previous_item(source, spot.item);
            if before.is_some() && stands_at(laying, spot.owner, pair.left) == before {
                return chosen_before(laying, spot.item, spot.owner);
            }
        }
    }
    let spot = spot_at(laying, pair.left)?;
    if is_lined_owner(source, spot.owner) || made {
        let next = next_item(source, spot.item);
        if next.is_some() && stands_at(laying, spot.owner, pair.right) == next {
            return chosen_before(laying, next?, spot.owner);
        }
    }
    None
}

// Whether the source node ends with a `;` that stands first on its line.
fn opens_with_semicolon(laying: Laying<'_, '_, '_>, number: Option<usize>) -> bool {
    let Some(number) = number else {
        return false;
    };
    let end = laying.reuse.source.span(number).end;
    let text = laying.text();
    let at = end as usize;
    at > 0 && at <= text.len() && text[at - 1] == b';' && stands_first(text, end.saturating_sub(1))
}

// The gap behind the left item's seat, where the next item is gone.
fn gap_of_gone(laying: Laying<'_, '_, '_>, pair: Pair<'_>, owner: usize) -> Option<Chosen> {
    let next = next_item(laying.reuse.source, laying.models.seat(pair.left)?)?;
    if laying.models.is_taken(pair.at, next) {
        return None;
    }
    chosen_before(laying, next, owner)
}

// The item of the model in whose text the row stands or is made.
fn inside_of(laying: Laying<'_, '_, '_>, owner: usize, at: usize) -> Option<usize> {
    let number = match source_number(laying, at) {
        Some(number) => number,
        None => origin_at(laying.models.origins.as_slice(), at)?,
    };
    holder(laying.reuse.source, owner, number)
}

// The gap before the right item's seat, or before the item in which it stands.
fn gap_before(laying: Laying<'_, '_, '_>, pair: Pair<'_>, owner: usize) -> Option<Chosen> {
    if let Some(seat) = laying.models.seat(pair.right) {
        let _before = previous_item(laying.reuse.source, seat)?;
        return chosen_before(laying, seat, owner);
    }
    let item = inside_of(laying, owner, pair.right)?;
    let _before = previous_item(laying.reuse.source, item)?;
    let left = match laying.models.seat(pair.left) {
        Some(seat) => Some(seat),
        None => inside_of(laying, owner, pair.left),
    };
    match left {
        Some(left) => {
            if left < item {
                return chosen_before(laying, item, owner);
            }
            None
        }
        None => chosen_before(laying, item, owner),
    }
}

// The two items sit at neighbours.
fn seated_neighbours(laying: Laying<'_, '_, '_>, pair: Pair<'_>, owner: usize) -> Option<Chosen> {
    let right = laying.models.seat(pair.right)?;
    let left = laying.models.seat(pair.left)?;
    if next_item(laying.reuse.source, left)? == right {
        return chosen_before(laying, right, owner);
    }
    None
}

// The gap of the two that parts more lines.
fn by_model<'s>(
    laying: Laying<'_, '_, 's>,
    gaps: &mut Gaps<'s>,
    pair: Pair<'_>,
    owner: usize,
) -> Result<Option<Chosen>, AllocError> {
    let gone = gap_of_gone(laying, pair, owner);
    let before = gap_before(laying, pair, owner);
    let lines = counted(laying, gaps, pair, gone)?;
    let others = counted(laying, gaps, pair, before)?;
    let found = if gone.is_some() && (before.is_none() || lines > others) {
        gone
    } else {
        before
    };
    if counted(laying, gaps, pair, found)? == 0 && pair.lines {
        return Ok(None);
    }
    Ok(found)
}

fn choose<'s>(
    laying: Laying<'_, '_, 's>,
    gaps: &mut Gaps<'s>,
    pair: Pair<'_>,
) -> Result<Option<Chosen>, AllocError> {
    let model = laying.models.model(pair.at);
    if let Some(model) = model {
        let found = seated_neighbours(laying, pair, model.owner);
        if found.is_some() {
            return Ok(found);
        }
    }
    if pair.lined {
        let found = neighbouring(laying, pair);
        let none = counted(laying, gaps, pair, found)? == 0
            && pair.lines
            && !opens_with_semicolon(laying, source_number(laying, pair.left));
        if found.is_some() && !none {
            return Ok(found);
        }
    }
    match model {
        Some(model) => by_model(laying, gaps, pair, model.owner),
        None => Ok(None),
    }
}

// The gap that is chosen, unless it parts no line for this list though its run ends one.
fn settled<'s>(
    laying: Laying<'_, '_, 's>,
    gaps: &mut Gaps<'s>,
    pair: Pair<'_>,
) -> Result<Option<(Chosen, MainRun)>, AllocError> {
    let Some(found) = choose(laying, gaps, pair)? else {
        return Ok(None);
    };
    let Some(main) = main_of(laying, gaps, found.name)? else {
        return Ok(None);
    };
    if main.lines > 0 && count_of(pair, main) == 0 {
        return Ok(None);
    }
    Ok(Some((found, main)))
}

fn is_declared(node: &Tree) -> bool {
    match node.kind {
        Kind::FunctionDeclaration | Kind::ClassDeclaration => true,
        Kind::ExportNamedDeclaration | Kind::ExportDefaultDeclaration => {
            match tree_forms::child(node, 0) {
                Some(child) => matches!(
                    child.kind,
                    Kind::FunctionDeclaration | Kind::ClassDeclaration
                ),
                None => false,
            }
        }
        _ => false,
    }
}

fn is_new_declaration(laying: Laying<'_, '_, '_>, at: usize) -> bool {
    match child_row(laying.rows, at) {
        Some(row) => laying.models.seat(at).is_none() && is_declared(row.node),
        None => false,
    }
}

// How many line ends part the items where no run is chosen.
fn made_lines(laying: Laying<'_, '_, '_>, pair: Pair<'_>, style: Option<Style>) -> usize {
    let class = matches!(pair.row.node.kind, Kind::ClassBody);
    let Some(style) = style else {
        return if class { 2 } else { 1 };
    };
    let owner = laying.models.model(pair.at);
    let first = match owner {
        Some(model) => first_item(laying.reuse.source, model.owner),
        None => None,
    };
    let seat = laying.models.seat(pair.right);
    let before_first = seat.is_some() && seat == first;
    let spread = !pair.lined
        || class
        || matches!(pair.row.node.kind, Kind::SwitchStatement)
        || is_new_declaration(laying, pair.left)
        || is_new_declaration(laying, pair.right)
        || before_first;
    if spread { style.least } else { 1 }
}

// The pattern's run, where it holds no comment and ends no line.
fn pattern_of<'s>(
    laying: Laying<'_, '_, 's>,
    gaps: &mut Gaps<'s>,
    style: Option<Style>,
) -> Result<(Option<MainRun>, bool), AllocError> {
    let Some(style) = style else {
        return Ok((None, false));
    };
    let Some(name) = style.pattern else {
        return Ok((None, false));
    };
    let number = gaps.number(laying, name)?;
    let main = main_of(laying, gaps, name)?;
    let plain = match gaps.get(Some(number)) {
        Some(gap) => gap.comments.is_empty(),
        None => false,
    };
    match main {
        Some(run) => Ok((main, plain && run.lines == 0)),
        None => Ok((None, false)),
    }
}

/// What parts the items of the row's list at these rows; `ends_in_line_comment` says so of the left
/// one's comments.
pub fn part_items<'a, 's>(
    laying: Laying<'_, 'a, 's>,
    gaps: &mut Gaps<'s>,
    at: usize,
    row: Row<'a>,
    left: usize,
    right: usize,
    ends_in_line_comment: bool,
) -> Result<Parting, AllocError> {
    let lined = is_line_list(row.node.kind);
    let style = laying.models.model_style(at);
    let lines = match style {
        Some(style) => style.lines,
        None => lined || laying.models.loose(at).is_some(),
    };
    let pair = Pair {
        at,
        row,
        left,
        right,
        lined,
        lines,
        ends_in_line_comment,
    };
    let found = settled(laying, gaps, pair)?;
    let broken = lines || matches!(row.node.kind, Kind::Program);
    let (pattern, is_flat) = pattern_of(laying, gaps, style)?;
    Ok(Parting {
        main: match found {
            Some((_, main)) => Some(main),
            None => None,
        },
        shift: match found {
            Some((chosen, _)) => laying.list_shift(at, row, chosen.owner),
            None => NO_SHIFT,
        },
        broken,
        lines: made_lines(laying, pair, style),
        commas_first: broken
            && match style {
                Some(style) => style.commas_first,
                None => false,
            },
        flat: if is_flat { pattern } else { None },
        pattern,
        seated: laying.models.seat(right).is_some(),
        lined,
    })
}

/// How many of the comments behind an item stand before its comma.
pub fn comma_rank(
    laying: Laying<'_, '_, '_>,
    gaps: &Gaps<'_>,
    items: &[Item<'_>],
    side: Side,
) -> usize {
    let Some(gap) = gaps.get(side.gap) else {
        return if any_ends_line(laying, gaps, items) {
            0
        } else {
            items.len()
        };
    };
    let mut comma = None;
    for at in 0..gap.atoms.len() {
        if comma.is_none() && gap.is_comma(at) {
            comma = Some(at.saturating_add(1));
        }
    }
    if let Some(comma) = comma {
        if !items.is_empty() && all_matched(items) {
            return before_rank(items, comma);
        }
    }
    if any_ends_line(laying, gaps, items) {
        0
    } else {
        items.len()
    }
}

fn all_matched(items: &[Item<'_>]) -> bool {
    for item in items {
        if item.gap.is_none() {
            return false;
        }
    }
    true
}

fn before_rank(items: &[Item<'_>], rank: usize) -> usize {
    for at in 0..items.len() {
        if items[at].rank >= rank {
            return at;
        }
    }
    items.len()
}

fn breaks_line(item: Item<'_>) -> bool {
    match item.what {
        What::Note(note) => generic_printer::is_breaking(note.comment),
        _ => false,
    }
}

// Whether a comment ends a line, or stands on a line of its own in the source.
fn any_ends_line(laying: Laying<'_, '_, '_>, gaps: &Gaps<'_>, items: &[Item<'_>]) -> bool {
    for item in items {
        if breaks_line(*item) {
            return true;
        }
        if let Some(gap) = gaps.get(item.gap) {
            if item.rank > 0 && gap.lines(laying.text(), item.rank - 1) > 0 {
                return true;
            }
        }
    }
    false
}
