//! A table of scripts with their outcomes.

use arena_trees::load;
use cm_text::Source;
use host_fields::Host;
use js_source::parse;
use js_tokens::units;
use node_arena::Arena;
use script_check::{Script, ScriptError, check};
use script_code::Code;
use script_eval::{Outcome, Ran, prepare, run};
use script_values::Heap;
use std::alloc::Global;
use tree_core::Parsed;

// What each script is run over.
const SOURCE: &str = "a;";

// What is shown, a script, the fuel that it is run with, and how its run ends.
type Row = (&'static str, &'static str, u64, &'static str);

// How runs end.
const RUNS: &[Row] = &[
    (
        "builder_type",
        "module.exports = (f, api) => { api.j.literal(-1); };",
        1000,
        "Fault BuilderType at 31 left 988",
    ),
    (
        "negative_number_built",
        "module.exports = (f, api) => { api.j.unaryExpression(\"-\", api.j.literal(1)); };",
        1000,
        "Nothing left 982",
    ),
    (
        "fuel_just_enough",
        "module.exports = () => { let i = 0; while (i < 141) { i += 1; } ;; };",
        1000,
        "Nothing left 0",
    ),
    (
        "fuel_a_unit_short",
        "module.exports = () => { let i = 0; while (i < 141) { i += 1; } ;; };",
        999,
        "Spent left 0",
    ),
    (
        "endless_loop",
        "module.exports = () => { while (true) {} };",
        1000,
        "Spent left 0",
    ),
    ("outside_the_subset", "var x;", 10, "form Subset at 0"),
    (
        "thrown",
        "module.exports = () => { throw \"no\"; };",
        100,
        "Fault Thrown at 25 left 93",
    ),
    (
        "recursion_without_end",
        "module.exports = () => { const f = () => f(); f(); };",
        10000000,
        "Fault Deep at 41 left 9849996",
    ),
    (
        "number_returned",
        "module.exports = () => 1;",
        100,
        "Fault BadReturn at 17 left 95",
    ),
    (
        "source_returned",
        "module.exports = (f) => f.source + \"\";",
        100,
        "Same left 92",
    ),
    (
        "recursion_to_the_limit",
        "module.exports = () => { const f = (n) => n === 0 ? 0 : f(n - 1); return !!f(33330); };",
        10000000,
        "Fault BadReturn at 17 left 9666681",
    ),
    (
        "recursion_one_deeper",
        "module.exports = () => { const f = (n) => n === 0 ? 0 : f(n - 1); return !!!f(33330); };",
        10000000,
        "Fault Deep at 42 left 9666682",
    ),
];

// Names that are early, and patterns.
const NAMES: &[Row] = &[
    (
        "early_write_has_no_effect",
        "module.exports = () => { q = 1; let q; return q; };",
        100,
        "Nothing left 89",
    ),
    (
        "early_read",
        "module.exports = () => { q += 1; let q; };",
        100,
        "Fault EarlyName at 25 left 93",
    ),
    (
        "early_read_of_a_captured_name",
        "module.exports = () => { const f = () => q; f(); let q = 1; };",
        100,
        "Fault EarlyName at 41 left 88",
    ),
    (
        "early_parameter",
        "module.exports = (f, api, o, { a = b } = {}, b) => 1;",
        100,
        "Fault EarlyName at 35 left 94",
    ),
    (
        "earlier_name_in_a_pattern",
        "const { a, b = a } = { a: 3 }; module.exports = () => { throw b; };",
        100,
        "Fault Thrown at 56 left 89",
    ),
    (
        "pattern_of_null",
        "module.exports = (f) => { const { a } = null; };",
        100,
        "Fault NoField at 17 left 93",
    ),
    (
        "loop_over_a_number",
        "module.exports = (f) => { for (const x of 5) {} };",
        100,
        "Fault BadOperand at 17 left 93",
    ),
];

// Faults and where they lie.
const FAULTS: &[Row] = &[
    (
        "method_of_undefined",
        "module.exports = (f) => { undefined.f(f.g()); };",
        100,
        "Fault NoField at 26 left 92",
    ),
    (
        "write_to_undefined",
        "module.exports = (f) => { undefined.x = f.g; };",
        100,
        "Fault NoField at 26 left 89",
    ),
    (
        "computed_key_of_null",
        "module.exports = (f) => { null[[]]; };",
        100,
        "Fault NoField at 26 left 91",
    ),
    (
        "chain_ends",
        "module.exports = (f) => f.none?.x.y(f.z)[f.q()];",
        100,
        "Nothing left 90",
    ),
    (
        "optional_method",
        "module.exports = (f) => f.none?.();",
        100,
        "Nothing left 93",
    ),
    (
        "no_method",
        "module.exports = (f) => { f.none(1); };",
        100,
        "Fault NoMethod at 26 left 90",
    ),
    (
        "not_callable",
        "module.exports = (f) => { (5)(1); };",
        100,
        "Fault NotCallable at 26 left 91",
    ),
    (
        "string_of_an_object",
        "module.exports = (f) => { String(f); };",
        100,
        "Fault BadOperand at 26 left 90",
    ),
    (
        "number_too_large",
        "module.exports = () => 9007199254740992;",
        50,
        "Fault Overflow at 23 left 45",
    ),
    (
        "sum_too_large",
        "module.exports = () => 9007199254740991 + 1;",
        50,
        "Fault Overflow at 23 left 43",
    ),
    (
        "template_of_a_list",
        "module.exports = (f) => { `a${[]}b${f()}`; };",
        80,
        "Fault BadOperand at 26 left 72",
    ),
    (
        "number_exported",
        "module.exports = 5;",
        80,
        "Fault NotCallable at 17 left 77",
    ),
    (
        "method_without_its_function",
        "module.exports = () => [1, 2].map(5);",
        80,
        "Fault BadOperand at 23 left 70",
    ),
    (
        "printed_before_a_change",
        concat!(
            "module.exports = (f, { j }) => { const root = j(f.source); const text = ",
            "root.toSource(); root.find(j.Identifier).remove(); return text; };"
        ),
        100,
        "Fault ChangedAfterPrint at 17 left 71",
    ),
    (
        "collection_of_a_node_without_a_place",
        "module.exports = (f, { j }) => { j(j.identifier(\"b\")); };",
        100,
        "Fault Foreign at 33 left 86",
    ),
    (
        "inserted_beside_the_program",
        "module.exports = (f, { j }) => { j(f.source).insertAfter(j.emptyStatement()); };",
        100,
        "Fault NotInList at 33 left 82",
    ),
    (
        "text_without_end",
        "module.exports = () => { let t = \"x\"; while (true) t += t; };",
        1000,
        "Fault TextLong at 51 left 904",
    ),
    (
        "thrown_in_a_function",
        "module.exports = () => { [1, 2].forEach(n => { throw n; }); };",
        80,
        "Fault Thrown at 47 left 63",
    ),
];

// Loops, functions, literals and updates.
const PARTS: &[Row] = &[
    (
        "binding_a_turn",
        concat!(
            "module.exports = (f) => { const fs = []; for (let i = 0; i < 3; i++) ",
            "fs.push(() => i); return fs[0]() + fs[1]() * 10 + fs[2]() * 100 === 210 ? ",
            "null : 1; };"
        ),
        200,
        "Nothing left 131",
    ),
    (
        "binding_an_item",
        concat!(
            "module.exports = (f) => { const fs = []; for (const i of [1, 2]) fs.push(() ",
            "=> i); return fs[0]() + fs[1]() * 10 === 21 ? null : 1; };"
        ),
        200,
        "Nothing left 159",
    ),
    (
        "object_parts",
        concat!(
            "module.exports = (f) => { const o = { a: 1, [\"b\" + 1]: 2, ...{ c: 3, a: 4 } ",
            "}; return Object.keys(o).join() + o.a === \"a,b1,c4\" ? null : 1; };"
        ),
        200,
        "Nothing left 162",
    ),
    (
        "rest_and_spread",
        concat!(
            "module.exports = (f) => { const g = (a, b = a + 1, ...[c, d = c]) => a + b + ",
            "c + d; return g(1, ...[undefined, 5]) === 13 ? null : 1; };"
        ),
        200,
        "Nothing left 170",
    ),
    (
        "own_name",
        concat!(
            "module.exports = (f) => { const g = function h(n) { return n < 1 ? 0 : h(n - ",
            "1) + 1; }; return g(3) === 3 ? null : 1; };"
        ),
        200,
        "Nothing left 135",
    ),
    (
        "exported_declaration",
        "export default function main(f) { return main === undefined ? 1 : null; }",
        200,
        "Nothing left 190",
    ),
    (
        "return_out_of_loops",
        concat!(
            "module.exports = (f) => { for (const x of [1, 2, 3]) { for (const y of [1, ",
            "2]) { if (y === 2) break; if (x === 2) return null; } } return 1; };"
        ),
        200,
        "Nothing left 154",
    ),
    (
        "updates_of_a_name",
        concat!(
            "module.exports = () => { let i = 5; return i++ + ++i + i-- - --i === 5 + 7 + ",
            "7 - 5 ? null : 1; };"
        ),
        50,
        "Nothing left 25",
    ),
    (
        "updates_of_a_field",
        concat!(
            "module.exports = () => { const o = { n: 5 }; return o.n++ + ++o[\"n\"] + (o.n ",
            "+= 2) === 5 + 7 + 9 ? null : 1; };"
        ),
        80,
        "Nothing left 50",
    ),
    (
        "template",
        concat!(
            "module.exports = (f) => { return `a${1}b${null}${true}` === \"a1bnulltrue\" ? ",
            "null : 1; };"
        ),
        80,
        "Nothing left 66",
    ),
    (
        "methods_with_functions",
        "module.exports = () => [1, 2].map(n => n * 2).filter(n => n > 2)[0] === 4 ? null : 1;",
        80,
        "Nothing left 38",
    ),
    (
        "parser_lines",
        "export const parser = \"x\"; module.exports.parser = \"y\"; export default () => {};",
        7,
        "Nothing left 3",
    ),
    (
        "nested_declared_functions",
        concat!(
            "module.exports = () => { return outer(2) === 5 ? null : 1; function outer(n) ",
            "{ return inner() + 1; function inner() { return n * 2; } } };"
        ),
        80,
        "Nothing left 54",
    ),
    (
        "slots_of_blocks",
        concat!(
            "module.exports = () => { let a = 1; { let c = 2; a += c; } let b = 3; { const ",
            "[d, e = d] = [a]; a = d + e + b; } return a === 9 ? null : 1; };"
        ),
        80,
        "Nothing left 47",
    ),
];

fn source_of(alloc: Global, text: &str) -> Option<Source> {
    let mut bytes = Vec::new(alloc);
    bytes.extend_from_slice(text.as_bytes()).ok()?;
    Source::new(bytes).ok()
}

/// The tree of a text.
pub fn parsed_of(alloc: Global, text: &str) -> Option<Parsed> {
    parse(alloc, &source_of(alloc, text)?).ok()
}

// How the run ended, with the fuel that is left.
fn outcome_text(alloc: Global, ran: Ran) -> Option<String> {
    let left = ran.left;
    let text = match ran.outcome {
        Outcome::Printed => format!(in alloc; "Printed left {left}"),
        Outcome::Nothing => format!(in alloc; "Nothing left {left}"),
        Outcome::Same => format!(in alloc; "Same left {left}"),
        Outcome::Spent => format!(in alloc; "Spent left {left}"),
        Outcome::Fault(fault) => {
            let (name, at) = (fault.kind.name(), fault.at);
            format!(in alloc; "Fault {name} at {at} left {left}")
        }
    };
    text.ok()
}

/// The host of a prepared script over a source.
pub fn host_of(alloc: Global, code: &Code, source: &str) -> Option<Host> {
    let mut arena = Arena::new(alloc).ok()?;
    let root = load(alloc, &mut arena, &parsed_of(alloc, source)?).ok()?;
    let mut heap = Heap::new(alloc, &code.words).ok()?;
    let text = units(alloc, source.as_bytes(), false).ok()?;
    let text = heap.text(text.get()).ok()?;
    Some(Host::new(alloc, arena, root, heap, text))
}

// Runs a checked script over the source, which has this name.
fn run_over(alloc: Global, script: &Script, name: &str, fuel: u64) -> Option<String> {
    let code = prepare(alloc, script).ok()?;
    let mut host = host_of(alloc, &code, SOURCE)?;
    let ran = run(&code, &mut host, name, fuel).ok()?;
    outcome_text(alloc, ran)
}

fn outcome_of(alloc: Global, script: &str, fuel: u64) -> Option<String> {
    match check(alloc, parsed_of(alloc, script)?) {
        Ok(script) => run_over(alloc, &script, "a.js", fuel),
        Err(ScriptError::Form(form)) => {
            let (name, at) = (form.kind.name(), form.at);
            format!(in alloc; "form {name} at {at}").ok()
        }
        Err(ScriptError::NoMemory) => None,
    }
}

// Runs the scripts of a table, and tells which ends otherwise.
fn try_rows(rt: &HostRuntime, rows: &[Row]) -> bool {
    let mut all = true;
    for row in rows {
        let Some(outcome) = outcome_of(rt.alloc(), row.1, row.2) else {
            return false;
        };
        if outcome.as_str() != row.3 {
            let _told = println!(rt; "{}: {} and not {}", row.0, outcome, row.3);
            all = false;
        }
    }
    all
}

#[test]
fn runs(rt: HostRuntime) {
    assert!(rt; try_rows(&rt, RUNS));
}

#[test]
fn names(rt: HostRuntime) {
    assert!(rt; try_rows(&rt, NAMES));
}

#[test]
fn faults(rt: HostRuntime) {
    assert!(rt; try_rows(&rt, FAULTS));
}

#[test]
fn parts(rt: HostRuntime) {
    assert!(rt; try_rows(&rt, PARTS));
}

// How a script ends over a file whose name has so many characters.
fn outcome_of_name(alloc: Global, count: u32) -> Option<String> {
    let mut name = String::new(alloc);
    for _character in 0..count {
        name.push('a').ok()?;
    }
    let script = check(alloc, parsed_of(alloc, "module.exports = () => null;")?).ok()?;
    run_over(alloc, &script, name.as_str(), 10)
}

#[test]
fn names_of_files(rt: HostRuntime) {
    let longest = outcome_of_name(rt.alloc(), 2_097_152).expect(&rt, "memory");
    assert!(rt; longest.as_str() == "Nothing left 5");
    let longer = outcome_of_name(rt.alloc(), 2_097_153).expect(&rt, "memory");
    assert!(rt; longer.as_str() == "Fault TextLong at 17 left 6");
}
