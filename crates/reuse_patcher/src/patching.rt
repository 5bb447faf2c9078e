//! Patches: the text of a changed tree, and what of it is the source's.

ghost use Rattle.std.specs.Prelude.{◌≡◌, IfOk};
ghost use Rattle.reuse_patcher.specs.Patches.{IsSourceTree};

use crate::lines::{Lines, lines_of};
use crate::models::{Modelling, Models, models_of};
use crate::patched::Patch;
use crate::writing::{Reuse, bases_of};
use cm_text::{Layout, Source};
use generic_printer::{Row, Sink, Slice, gather, rows_of, settle, write_rows};
use js_forms::Context;
use piece_plan::{Kept, Marks, SourceTree, marks_of, offset, plan};
use std::alloc::{AllocError, Global};
use tree_core::{Parsed, Span, Tree, same};
use tree_forms::ALONE;

fn nothing_kept(alloc: Global) -> Kept {
    Kept {
        starts: Vec::new(alloc),
        pieces: Vec::new(alloc),
        parens: Vec::new(alloc),
        bare: Vec::new(alloc),
    }
}

// The source as it is.
fn whole(alloc: Global, source: &Source) -> Result<Patch, AllocError>
    ensures { IfOk result (λ patch. patch.text.items ≡ source.now) }
{
    let mut text = Vec::new(alloc);
    text.extend_from_slice(source.bytes())?;
    let mut slices = Vec::new(alloc);
    slices.push(Slice {
        at: 0,
        span: Span {
            start: 0,
            end: offset(source.bytes().len()),
        },
    })?;
    Ok(Patch { text, slices })
}

/// The text that the tree has over the source from whose tree it comes: the tree is one that some
/// text spells, and `parsed` is what was read of the source. A tree that is the source's has its text.
pub fn patch(
    alloc: Global,
    source: &Source,
    parsed: &Parsed,
    tree: &Tree,
    layout: Layout,
) -> Result<Patch, AllocError>
    ensures same { IsSourceTree parsed.now tree.now → IfOk result (λ patch. patch.text.items ≡ source.now) }
{
    if tree.from == parsed.tree.from && same(tree, &parsed.tree) {
        return whole(alloc, source);
    }
    changed(alloc, source, parsed, tree, layout)
}

// A source, and the marks of a tree over it.
#[derive(Clone, Copy)]
struct Base<'b, 's> {
    alloc: Global,
    source: &'b SourceTree<'s>,
    marks: &'b Marks,
    lines: &'b Lines,
    bases: &'b [usize],
}

// The tree's rows, and what is kept of their pieces.
fn planned_rows<'b, 'x>(
    base: Base<'b, '_>,
    none: &'b Kept,
    tree: &'x Tree,
    layout: &Layout,
) -> Result<(Vec<Row<'x>>, Kept), AllocError> {
    let reuse = Reuse {
        alloc: base.alloc,
        source: base.source,
        marks: base.marks,
        lines: base.lines,
        kept: none,
        bases: base.bases,
        models: None,
    };
    let mut rows = rows_of(base.alloc, &reuse, tree, ALONE)?;
    gather(&mut rows)?;
    let kept = plan(base.alloc, base.source, rows.as_slice(), layout)?;
    Ok((rows, kept))
}

fn settle_rows<'b>(
    base: Base<'b, '_>,
    kept: &'b Kept,
    rows: &mut Vec<Row<'_>>,
) -> Result<(), AllocError> {
    let reuse = Reuse {
        alloc: base.alloc,
        source: base.source,
        marks: base.marks,
        lines: base.lines,
        kept,
        bases: base.bases,
        models: None,
    };
    settle(&reuse, rows, Context::outermost())
}

// How the lists of the rows are laid out.
fn models_for<'b>(
    base: Base<'b, '_>,
    rows: &'b [Row<'_>],
    layout: &Layout,
) -> Result<Models, AllocError> {
    models_of(Modelling {
        alloc: base.alloc,
        source: base.source,
        marks: base.marks,
        rows,
        tab: layout.tab_width,
        trailing_comma: layout.trailing_comma,
    })
}

// The text of the rows.
fn written<'b>(
    base: Base<'b, '_>,
    kept: &'b Kept,
    models: &'b Models,
    rows: &mut Vec<Row<'_>>,
    layout: Layout,
) -> Result<Patch, AllocError> {
    let reuse = Reuse {
        alloc: base.alloc,
        source: base.source,
        marks: base.marks,
        lines: base.lines,
        kept,
        bases: base.bases,
        models: Some(models),
    };
    let mut sink = Sink::new(base.alloc, layout, base.source.text.line_end(), 0);
    write_rows(base.alloc, &reuse, rows, &mut sink)?;
    let Sink { out, slices, .. } = sink;
    Ok(Patch { text: out, slices })
}

// The text of a tree that is not the source's.
fn changed<'x>(
    alloc: Global,
    source: &'x Source,
    parsed: &'x Parsed,
    tree: &Tree,
    layout: Layout,
) -> Result<Patch, AllocError> {
    let source = SourceTree::new(alloc, source, parsed)?;
    over_source(alloc, source, tree, layout)
}

fn over_source(
    alloc: Global,
    source: SourceTree<'_>,
    tree: &Tree,
    layout: Layout,
) -> Result<Patch, AllocError> {
    let marks = marks_of(alloc, &source, tree)?;
    let lines = lines_of(alloc, &source, layout.tab_width)?;
    let bases = bases_of(alloc, &source)?;
    let none = nothing_kept(alloc);
    let base = Base {
        alloc,
        source: &source,
        marks: &marks,
        lines: &lines,
        bases: bases.as_slice(),
    };
    let (mut rows, mut kept) = planned_rows(base, &none, tree, &layout)?;
    settle_rows(base, &kept, &mut rows)?;
    let models = models_for(base, rows.as_slice(), &layout)?;
    kept.drop_broken(rows.as_slice(), models.broken.as_slice());
    written(base, &kept, &models, &mut rows, layout)
}
