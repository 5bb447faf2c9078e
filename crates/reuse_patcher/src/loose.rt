//! Lists of properties that stand in lines though nothing in the source shows how, and the units of
//! lists.

use crate::models::{Loose, Modelling, Models, child_row, is_other_item};
use crate::spots::{Spot, origin_at, spot_of};
use generic_printer::Row;
use source_layout::{Style, Unit, is_line_list, unit_of};
use std::alloc::AllocError;
use type_defs::Kind;

// Two of the properties come from two items of one comma list of lines: that list.
fn shared_list(models: &Models, modelling: Modelling<'_, '_, '_>, row: Row<'_>) -> Option<Style> {
    let mut first: Option<Spot> = None;
    let mut at = row.first;
    for _turn in 0..modelling.rows.len() {
        let child = child_row(modelling.rows, at)?;
        let origin = origin_at(models.origins.as_slice(), at);
        if let Some(spot) = spot_of(modelling.source, child, origin) {
            if first.is_none() && is_comma_list_of_lines(models, modelling, spot) {
                first = Some(spot);
            } else if is_other_item(first, spot) {
                return models.style(spot.owner);
            }
        }
        at = child.next;
    }
    None
}

fn is_comma_list_of_lines(models: &Models, modelling: Modelling<'_, '_, '_>, spot: Spot) -> bool {
    let lined = match modelling.source.node(spot.owner) {
        Some(owner) => is_line_list(owner.node.kind),
        None => true,
    };
    !lined
        && match models.style(spot.owner) {
            Some(style) => style.lines,
            None => false,
        }
}

// The trailing comma of the nearest object above that is written in lines in the source.
fn trailing_above(models: &Models, modelling: Modelling<'_, '_, '_>, at: usize) -> Option<bool> {
    let mut here = at;
    for _level in 0..modelling.rows.len() {
        let row = child_row(modelling.rows, here)?;
        let above = modelling.rows.get(row.parent)?;
        if matches!(above.node.kind, Kind::ObjectExpression) {
            if let Some(number) = modelling.source.source_of(above.node) {
                if let Some(style) = models.style(number) {
                    if style.count > 0 && style.lines {
                        return Some(style.trailing_comma);
                    }
                }
            }
        }
        here = row.parent;
    }
    None
}

fn loosen(models: &mut Models, modelling: Modelling<'_, '_, '_>, at: usize, row: Row<'_>) {
    if row.kept
        || row.first == 0
        || !matches!(row.node.kind, Kind::ObjectExpression)
        || models.model(at).is_some()
    {
        return;
    }
    let shared = shared_list(models, modelling, row);
    if shared.is_none() && !row.loose {
        return;
    }
    let trailing_comma = match trailing_above(models, modelling, at) {
        Some(trailing) => trailing,
        None => match shared {
            Some(style) => style.trailing_comma,
            None => modelling.trailing_comma,
        },
    };
    if at < models.loose.len() {
        models.loose[at] = Some(Loose { trailing_comma });
    }
}

/// Finds the lists of properties that stand in lines.
pub fn loosen_all(models: &mut Models, modelling: Modelling<'_, '_, '_>) {
    for at in 0..modelling.rows.len() {
        loosen(models, modelling, at, modelling.rows[at]);
    }
}

// The unit of the lists in the row: that of the nearest node above that shows one.
fn unit_above(
    models: &Models,
    modelling: Modelling<'_, '_, '_>,
    row: Row<'_>,
) -> Result<Option<Unit>, AllocError> {
    let Some(parent) = modelling.rows.get(row.parent) else {
        return Ok(models.facts.unit);
    };
    if let Some(number) = modelling.source.source_of(parent.node) {
        let unit = unit_of(modelling.alloc, modelling.source, number, modelling.tab)?;
        if unit.is_some() {
            return Ok(unit);
        }
    }
    Ok(models.unit(row.parent))
}

/// Finds the units of the lists in each row.
pub fn units_all(models: &mut Models, modelling: Modelling<'_, '_, '_>) -> Result<(), AllocError> {
    for at in 0..modelling.rows.len() {
        let row = modelling.rows[at];
        if !row.kept && at > 0 {
            let unit = unit_above(models, modelling, row)?;
            if at < models.units.len() {
                models.units[at] = unit;
            }
        }
    }
    Ok(())
}
