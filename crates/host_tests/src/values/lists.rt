//! The methods of lists.

use super::Given::{self, List, Null, Text, Truth, Undefined, Whole};
use super::{name_of, new_heap, values_of, written};
use script_values::{Heap, Stop, Value};
use value_methods::ListMethod::{
    self, Concat, Includes, IndexOf, Join, Pop, Push, Reverse, Shift, Slice, Unshift,
};
use value_methods::call_list_method;

type Row = (
    ListMethod,
    &'static [Given],
    &'static [Given],
    &'static str,
    &'static str,
    u64,
);

// The method, the items, the arguments, the answer that ECMA-262 gives, the items after, and the
// units of fuel.
const ANSWERS: &[Row] = &[
    (
        Push,
        &[Whole(1)],
        &[Whole(2), Text("a")],
        "3",
        "[1|2|'a']",
        2,
    ),
    (Push, &[], &[], "0", "[]", 0),
    (
        Unshift,
        &[Whole(3)],
        &[Whole(1), Whole(2)],
        "3",
        "[1|2|3]",
        2,
    ),
    (Unshift, &[], &[Text("x")], "1", "['x']", 1),
    (Pop, &[Whole(1), Text("b")], &[], "'b'", "[1]", 1),
    (Pop, &[], &[], "undefined", "[]", 0),
    (Shift, &[Text("a"), Whole(2)], &[], "'a'", "[2]", 1),
    (Shift, &[], &[], "undefined", "[]", 0),
    (
        Reverse,
        &[Whole(1), Whole(2), Text("c")],
        &[],
        "['c'|2|1]",
        "['c'|2|1]",
        6,
    ),
    (Reverse, &[], &[], "[]", "[]", 0),
    (
        Slice,
        &[Whole(1), Whole(2), Whole(3), Whole(4)],
        &[Whole(1), Whole(3)],
        "[2|3]",
        "[1|2|3|4]",
        6,
    ),
    (
        Slice,
        &[Whole(1), Whole(2), Whole(3)],
        &[Whole(-2)],
        "[2|3]",
        "[1|2|3]",
        5,
    ),
    (
        Slice,
        &[Whole(1), Whole(2), Whole(3)],
        &[],
        "[1|2|3]",
        "[1|2|3]",
        6,
    ),
    (
        Slice,
        &[Whole(1), Whole(2), Whole(3)],
        &[Whole(2), Whole(1)],
        "[]",
        "[1|2|3]",
        3,
    ),
    (
        Slice,
        &[Whole(1), Whole(2)],
        &[Whole(0), Whole(-1)],
        "[1]",
        "[1|2]",
        3,
    ),
    (Slice, &[], &[Whole(0)], "[]", "[]", 0),
    (
        IndexOf,
        &[Whole(1), Text("a"), Null, Text("a")],
        &[Text("a")],
        "1",
        "[1|'a'|null|'a']",
        5,
    ),
    (
        IndexOf,
        &[Whole(1), Whole(2)],
        &[Whole(3)],
        "-1",
        "[1|2]",
        2,
    ),
    (
        IndexOf,
        &[Truth(true), Undefined],
        &[Undefined],
        "1",
        "[true|undefined]",
        2,
    ),
    (
        IndexOf,
        &[Undefined, Null],
        &[Null],
        "1",
        "[undefined|null]",
        2,
    ),
    (IndexOf, &[Text("<>")], &[Text("<>")], "0", "['<>']", 3),
    (IndexOf, &[Text("1")], &[Whole(1)], "-1", "['1']", 1),
    (
        Includes,
        &[Whole(1), Whole(2)],
        &[Whole(2)],
        "true",
        "[1|2]",
        2,
    ),
    (Includes, &[Text("ab")], &[Text("a")], "false", "['ab']", 2),
    (Includes, &[], &[Undefined], "false", "[]", 0),
    (
        Join,
        &[Text("a"), Whole(1), Null, Undefined, Truth(false)],
        &[Text("-")],
        "'a-1---false'",
        "['a'|1|null|undefined|false]",
        17,
    ),
    (Join, &[Text("a"), Text("b")], &[], "'a,b'", "['a'|'b']", 5),
    (Join, &[], &[Text("x")], "''", "[]", 1),
    (
        Join,
        &[Text("<"), Text(">")],
        &[Text("")],
        "'<>'",
        "['<'|'>']",
        4,
    ),
    (Join, &[Whole(-5)], &[Text(",")], "'-5'", "[-5]", 4),
    (
        Join,
        &[Text("a"), Text("b")],
        &[Text("<>")],
        "'a<>b'",
        "['a'|'b']",
        8,
    ),
    (
        Concat,
        &[Whole(1)],
        &[Whole(2), Text("ab"), Null],
        "[1|2|'ab'|null]",
        "[1]",
        7,
    ),
    (Concat, &[Whole(1), Whole(2)], &[], "[1|2]", "[1|2]", 4),
];

// The method, the items, the arguments, and the fault.
const FAULTS: &[(ListMethod, &[Given], &[Given], &str)] = &[
    (Slice, &[Whole(1)], &[Text("0")], "BadOperand"),
    (Slice, &[Whole(1)], &[Undefined, Whole(1)], "BadOperand"),
    (Join, &[Whole(1)], &[Whole(1)], "BadOperand"),
    (Join, &[Whole(1)], &[Null], "BadOperand"),
    (Join, &[List], &[Text(",")], "BadOperand"),
];

// What a method gives with so much fuel, the items after, and the fuel that is left.
fn run(
    heap: &mut Heap,
    method: ListMethod,
    items: &[Given],
    given: &[Given],
    fuel: u64,
) -> Result<(String, String, u64), Stop> {
    let values = values_of(heap, items)?;
    let list = heap.list(&values)?;
    let arguments = values_of(heap, given)?;
    let mut left = fuel;
    let answer = call_list_method(heap, list, method, &arguments, &mut left)?;
    let after = written(heap, Value::List(list))?;
    Ok((written(heap, answer)?, after, left))
}

#[test]
fn answers(rt: HostRuntime) {
    let mut heap = new_heap(rt.alloc()).expect(&rt, "memory");
    for (method, items, given, answer, after, units) in ANSWERS {
        let (found, then, left) = run(&mut heap, *method, items, given, *units).expect(&rt, answer);
        assert!(rt; found.as_str() == *answer, "{method:?}: {found}");
        assert!(rt; then.as_str() == *after, "{method:?}: {then}");
        assert!(rt; left == 0, "{method:?}: {left}");
        if *units > 0 {
            let spent = run(&mut heap, *method, items, given, units - 1);
            assert!(rt; matches!(spent, Err(Stop::Spent)), "{method:?}");
        }
    }
}

#[test]
fn faults(rt: HostRuntime) {
    let mut heap = new_heap(rt.alloc()).expect(&rt, "memory");
    for (method, items, given, fault) in FAULTS {
        match run(&mut heap, *method, items, given, 0) {
            Ok(_) => assert!(rt; false, "{method:?}"),
            Err(stop) => assert!(rt; name_of(stop) == *fault, "{method:?}"),
        }
    }
}

#[test]
fn lists_of_arguments(rt: HostRuntime) {
    let mut heap = new_heap(rt.alloc()).expect(&rt, "memory");
    let some = heap
        .list(&[Value::Whole(1), Value::Whole(2)])
        .expect(&rt, "memory");
    let other = heap.list(&[Value::Whole(3)]).expect(&rt, "memory");
    let mut fuel = 6;
    let arguments = [Value::List(other)];
    let all = call_list_method(&mut heap, some, Concat, &arguments, &mut fuel).expect(
        &rt, "memory",
    );
    let text = written(&mut heap, all).expect(&rt, "memory");
    assert!(rt; text.as_str() == "[1|2|3]");
    assert!(rt; fuel == 0);
}
