//! Operators.

use super::Given::{self, List, Null, Text, Truth, Undefined, Whole};
use super::{name_of, new_heap, value_of, write_text, written};
use script_values::{Heap, Stop, Value};
use std::cmp::Ordering;
use value_methods::{
    MAX_NUMBER, add, compare, equal, is_true, multiply, negate, remainder, same, subtract, type_of,
};

const MOST: i64 = MAX_NUMBER;

// The left operand, the operator, the right one, and the value or the fault.
const ROWS: &[(Given, &str, Given, &str)] = &[
    (Whole(2), "+", Whole(-3), "-1"),
    (Whole(MOST), "+", Whole(1), "Overflow"),
    (Whole(MOST), "+", Whole(0), "9007199254740991"),
    (Text("a"), "+", Whole(-12), "'a-12'"),
    (Truth(true), "+", Text("<"), "'true<'"),
    (Null, "+", Text("a"), "'nulla'"),
    (Text("a"), "+", Undefined, "'aundefined'"),
    (Truth(true), "+", Whole(1), "BadOperand"),
    (List, "+", Text("a"), "BadOperand"),
    (Whole(-MOST), "-", Whole(1), "Overflow"),
    (Whole(7), "-", Whole(9), "-2"),
    (Text("7"), "-", Whole(9), "BadOperand"),
    (Whole(-4), "*", Whole(6), "-24"),
    (Whole(MOST), "*", Whole(MOST), "Overflow"),
    (Whole(94906267), "*", Whole(94906267), "Overflow"),
    (Whole(-7), "%", Whole(3), "-1"),
    (Whole(7), "%", Whole(-3), "1"),
    (Whole(7), "%", Whole(0), "BadOperand"),
    (Text("<"), "===", Text("<"), "true"),
    (Text("1"), "===", Whole(1), "false"),
    (List, "===", List, "false"),
    (Null, "==", Undefined, "true"),
    (Null, "==", Whole(0), "false"),
    (Text("1"), "==", Whole(1), "BadOperand"),
    (Text("a"), "==", Text("a"), "true"),
    (Whole(1), "<", Whole(2), "true"),
    (Text("<"), "<", Text(">"), "true"),
    (Text("ab"), "<", Text("a"), "false"),
    (Text("a"), "<", Whole(1), "BadOperand"),
    (Whole(5), "-", Null, "BadOperand"),
];

fn applied(heap: &mut Heap, left: Value, operator: &str, right: Value) -> Result<Value, Stop> {
    match operator {
        "+" => add(heap, left, right),
        "-" => subtract(left, right),
        "*" => multiply(left, right),
        "%" => remainder(left, right),
        "===" => Ok(Value::Truth(same(heap, left, right)?)),
        "==" => Ok(Value::Truth(equal(heap, left, right)?)),
        _ => Ok(Value::Truth(compare(heap, left, right)? == Ordering::Less)),
    }
}

fn run(heap: &mut Heap, left: Given, operator: &str, right: Given) -> Result<Value, Stop> {
    let a = value_of(heap, left)?;
    let b = value_of(heap, right)?;
    applied(heap, a, operator, b)
}

#[test]
fn of_two_operands(rt: HostRuntime) {
    let mut heap = new_heap(rt.alloc()).expect(&rt, "memory");
    for (left, operator, right, answer) in ROWS {
        match run(&mut heap, *left, operator, *right) {
            Ok(value) => {
                let text = written(&mut heap, value).expect(&rt, "memory");
                assert!(rt; text.as_str() == *answer, "{operator}: {text}");
            }
            Err(stop) => assert!(rt; name_of(stop) == *answer, "{operator}"),
        }
    }
}

// A value, whether it counts as true, and its type.
const TYPES: &[(Given, bool, &str)] = &[
    (Undefined, false, "undefined"),
    (Null, false, "object"),
    (Truth(true), true, "boolean"),
    (Whole(0), false, "number"),
    (Whole(-1), true, "number"),
    (Text(""), false, "string"),
    (Text("0"), true, "string"),
    (List, true, "object"),
];

fn type_name(heap: &mut Heap, value: Value) -> Result<String, Stop> {
    let mut out = String::new(heap.alloc());
    let text = heap.spelling(type_of(value));
    write_text(heap, text, &mut out)?;
    Ok(out)
}

#[test]
fn of_one_operand(rt: HostRuntime) {
    let mut heap = new_heap(rt.alloc()).expect(&rt, "memory");
    for (given, truth, name) in TYPES {
        let value = value_of(&mut heap, *given).expect(&rt, "memory");
        let counts = is_true(&heap, value).expect(&rt, "memory");
        assert!(rt; counts == *truth, "{name}");
        let value = value_of(&mut heap, *given).expect(&rt, "memory");
        let text = type_name(&mut heap, value).expect(&rt, "memory");
        assert!(rt; text.as_str() == *name, "{name}: {text}");
    }
    assert!(rt; negate(Value::Whole(5)) == Ok(Value::Whole(-5)));
    assert!(rt; negate(Value::Null).is_err());
}
