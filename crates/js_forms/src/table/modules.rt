//! Imports and exports (ECMA-262, clause 16.2).

use crate::category::Category;
use crate::context::Scope;
use crate::form::Form;
use crate::levels::{ASSIGNMENT, PRIMARY};
use crate::piece::{Blank, Choice, Fixed, MetaWord, Piece, Place, Spelling, Test};
use crate::table::Row;
use asi_rules::Ending;
use js_tokens::{Punctuator, Word};
use type_defs::Kind;

const SPACE: Piece = Piece::Blank(Blank::Space);

const INSIDE: Piece = Piece::Blank(Blank::Inside);

const SOURCE: Piece = child!(Source, 0, Same);

const NAME: Piece = child!(Name, 0, Same);

const ANY_NAME: Piece = child!(AnyName, 0, Same);

const AS: Piece = Piece::Token(Test::Spelled(MetaWord::As));

const END: Piece = Piece::End(Ending::Statement, false);

const IMPORTS: Piece = Piece::Commas(place!(ImportSpecifier, 0, Same), false, true);

const NO_IMPORTS: Piece = Piece::NoList(Some(place!(Imports, 0, Same)));

const DEFAULT: Piece = Piece::Into(place!(ImportDefault, 0, Same));

const NAMESPACE: Piece = Piece::Into(place!(ImportNamespace, 0, Same));

/// Clauses 16.2.2 and 16.2.3.
pub const MODULE_ITEMS: &[Row] = rows! {
    Form::Import, ImportDeclaration, PRIMARY:
        Usual [word!(Import), SPACE, NO_IMPORTS, SOURCE, END]
        Names [word!(Import), SPACE, mark!(OpenBrace), INSIDE, IMPORTS, INSIDE,
            mark!(CloseBrace), SPACE, word!(From), SPACE, SOURCE, END]
        Namespace [word!(Import), SPACE, NAMESPACE, NO_IMPORTS, SPACE, word!(From), SPACE,
            SOURCE, END]
        DefaultAlone [word!(Import), SPACE, DEFAULT, NO_IMPORTS, SPACE, word!(From), SPACE,
            SOURCE, END]
        DefaultAndNames [word!(Import), SPACE, DEFAULT, mark!(Comma), SPACE, mark!(OpenBrace),
            INSIDE, IMPORTS, INSIDE, mark!(CloseBrace), SPACE, word!(From), SPACE, SOURCE, END]
        DefaultAndNamespace [word!(Import), SPACE, DEFAULT, mark!(Comma), SPACE, NAMESPACE,
            NO_IMPORTS, SPACE, word!(From), SPACE, SOURCE, END];
    Form::ImportSpecifier, ImportSpecifier, PRIMARY:
        Usual [fixed!(False), ANY_NAME, SPACE, AS, SPACE, NAME];
    Form::ImportShorthand, ImportSpecifier, PRIMARY:
        Usual [fixed!(True), Piece::Twins(true, place!(Name, 0, Same))];
    Form::ImportDefault, ImportDefaultSpecifier, PRIMARY:
        Usual [NAME];
    Form::ImportNamespace, ImportNamespaceSpecifier, PRIMARY:
        Usual [mark!(Star), SPACE, AS, SPACE, NAME];
    Form::ExportDeclaration, ExportNamedDeclaration, PRIMARY:
        Usual [word!(Export), SPACE, child!(Declaration, 0, Same), Piece::NoList(None),
            Piece::Hole];
    Form::ExportNames, ExportNamedDeclaration, PRIMARY:
        Usual [word!(Export), SPACE, Piece::Hole, mark!(OpenBrace), INSIDE,
            Piece::Commas(place!(ExportSpecifier, 0, Same), false, true), INSIDE,
            mark!(CloseBrace), SPACE, word!(From), SPACE, SOURCE, END]
        WithoutSource [word!(Export), SPACE, Piece::Hole, mark!(OpenBrace), INSIDE,
            Piece::Commas(place!(OwnExport, 0, Same), false, true), INSIDE, mark!(CloseBrace),
            Piece::Hole, Piece::End(Ending::Statement, true)];
    Form::ExportSpecifier, ExportSpecifier, PRIMARY:
        Usual [fixed!(False), ANY_NAME, SPACE, AS, SPACE, ANY_NAME]
        WithoutSource [fixed!(False), NAME, SPACE, AS, SPACE, ANY_NAME];
    Form::ExportShorthand, ExportSpecifier, PRIMARY:
        Usual [fixed!(True), Piece::Twins(false, place!(AnyName, 0, Same))]
        WithoutSource [fixed!(True), Piece::Twins(false, place!(Name, 0, Same))];
    Form::ExportDefault, ExportDefaultDeclaration, PRIMARY:
        Usual [word!(Export), SPACE, word!(Default), SPACE, Piece::Ahead(Test::NoDeclaration),
            child!(Expression, ASSIGNMENT, Same), END];
    Form::ExportDefaultDeclaration, ExportDefaultDeclaration, PRIMARY:
        Usual [word!(Export), SPACE, word!(Default), SPACE, child!(DefaultDeclaration, 0, Same)];
    Form::ExportAll, ExportAllDeclaration, PRIMARY:
        Usual [word!(Export), SPACE, mark!(Star), choice!(ExportedAs), SPACE, word!(From), SPACE,
            SOURCE, END];
};
