//! The methods of texts.

use super::Given::{self, List, Null, Text, Whole};
use super::{name_of, new_heap, text_of, values_of, written};
use script_values::{Heap, Stop};
use value_methods::TextMethod::{
    self, CharAt, Concat, EndsWith, Includes, IndexOf, Replace, Slice, Split, StartsWith, Trim,
};
use value_methods::call_text_method;

type Row = (
    TextMethod,
    &'static str,
    &'static [Given],
    &'static str,
    u64,
);

// The method, the text, the arguments, the answer that ECMA-262 gives, and the units of fuel: one
// for each code unit that is read or given.
const ANSWERS: &[Row] = &[
    (CharAt, "a<>", &[Whole(0)], "'a'", 1),
    (CharAt, "a<>", &[Whole(1)], "'<'", 1),
    (CharAt, "a<>", &[Whole(2)], "'>'", 1),
    (CharAt, "a<>", &[Whole(3)], "''", 0),
    (CharAt, "a", &[Whole(-1)], "''", 0),
    (IndexOf, "a<>b<>", &[Text("<>")], "1", 8),
    (IndexOf, "a<>b", &[Text(">")], "2", 5),
    (IndexOf, "<<>", &[Text("<>")], "1", 5),
    (IndexOf, "abc", &[Text("")], "0", 3),
    (IndexOf, "", &[Text("a")], "-1", 1),
    (IndexOf, "aabaabaaab", &[Text("aaab")], "6", 14),
    (IndexOf, "abab", &[Text("abc")], "-1", 7),
    (IndexOf, "<", &[Text(">")], "-1", 2),
    (Includes, "a<>", &[Text("<")], "true", 4),
    (Includes, "ab", &[Text("ba")], "false", 4),
    (Includes, "", &[Text("")], "true", 0),
    (StartsWith, "<>a", &[Text("<")], "true", 4),
    (StartsWith, "ab", &[Text("abc")], "false", 5),
    (StartsWith, "ab", &[Text("")], "true", 2),
    (EndsWith, "a<>", &[Text(">")], "true", 4),
    (EndsWith, "b", &[Text("ab")], "false", 3),
    (EndsWith, "ab", &[Text("b")], "true", 3),
    (EndsWith, "", &[Text("")], "true", 0),
    (Slice, "a<>b", &[Whole(1), Whole(2)], "'<'", 5),
    (Slice, "a<>b", &[Whole(2)], "'>b'", 6),
    (Slice, "a<>b", &[Whole(-2)], "'>b'", 6),
    (Slice, "a<>b", &[Whole(-9), Whole(-1)], "'a<>'", 7),
    (Slice, "abc", &[Whole(2), Whole(1)], "''", 3),
    (Slice, "abc", &[Whole(5)], "''", 3),
    (Slice, "abc", &[], "'abc'", 6),
    (Slice, "abc", &[Whole(0), Whole(99)], "'abc'", 6),
    (Split, "a,b,,c", &[Text(",")], "['a'|'b'|''|'c']", 11),
    (Split, "a<>b", &[Text("")], "['a'|'<'|'>'|'b']", 8),
    (Split, "", &[Text("")], "[]", 0),
    (Split, "", &[Text(",")], "['']", 2),
    (Split, "abc", &[Text("abc")], "[''|'']", 8),
    (Split, "aaa", &[Text("aa")], "[''|'a']", 7),
    (Split, "<>", &[Text("<")], "[''|'>']", 5),
    (Split, "ab", &[Text("c")], "['ab']", 4),
    (
        Trim,
        " \u{9}\u{a} a b \u{a0}\u{feff}\u{2028}",
        &[],
        "'a b'",
        14,
    ),
    (Trim, "\u{180e} a", &[], "'\u{180e} a'", 6),
    (Trim, "   ", &[], "''", 3),
    (Trim, "<", &[], "'<'", 2),
    (Trim, "\u{3000}>\u{2009}", &[], "'>'", 4),
    (Replace, "aXbX", &[Text("X"), Text("$&")], "'a$&bX'", 12),
    (Replace, "ab", &[Text(""), Text("-")], "'-ab'", 6),
    (Replace, "a<>", &[Text("<"), Text("_")], "'a_>'", 8),
    (Replace, "ab", &[Text("c"), Text("d")], "'ab'", 6),
    (Replace, "aab", &[Text("ab"), Text("")], "'a'", 6),
    (Concat, "a<", &[Text(">b")], "'a<>b'", 8),
    (Concat, "", &[Text("")], "''", 0),
];

// The method, the text, the arguments, and the fault.
const FAULTS: &[(TextMethod, &str, &[Given], &str)] = &[
    (CharAt, "a", &[], "BadOperand"),
    (CharAt, "a", &[Text("0")], "BadOperand"),
    (IndexOf, "a", &[Whole(1)], "BadOperand"),
    (Includes, "a", &[], "BadOperand"),
    (StartsWith, "a", &[Null], "BadOperand"),
    (EndsWith, "a", &[List], "BadOperand"),
    (Slice, "a", &[Text("0")], "BadOperand"),
    (Slice, "a", &[Whole(0), Null], "BadOperand"),
    (Slice, "a", &[Given::Undefined, Whole(1)], "BadOperand"),
    (Split, "a", &[], "BadOperand"),
    (Replace, "a", &[Text("a")], "BadOperand"),
    (Replace, "a", &[Whole(1), Text("a")], "BadOperand"),
    (Concat, "a", &[Whole(1)], "BadOperand"),
];

// What a method gives with so much fuel, as rows write it, and the fuel that is left.
fn run(
    heap: &mut Heap,
    method: TextMethod,
    text: &str,
    given: &[Given],
    fuel: u64,
) -> Result<(String, u64), Stop> {
    let on = text_of(heap, text)?;
    let arguments = values_of(heap, given)?;
    let mut left = fuel;
    let answer = call_text_method(heap, on, method, &arguments, &mut left)?;
    Ok((written(heap, answer)?, left))
}

#[test]
fn answers(rt: HostRuntime) {
    let mut heap = new_heap(rt.alloc()).expect(&rt, "memory");
    for (method, text, given, answer, units) in ANSWERS {
        let (found, left) = run(&mut heap, *method, text, given, *units).expect(&rt, text);
        assert!(rt; found.as_str() == *answer, "{method:?} of {text}: {found}");
        assert!(rt; left == 0, "{method:?} of {text}: {left}");
        if *units > 0 {
            let spent = run(&mut heap, *method, text, given, units - 1);
            assert!(rt; matches!(spent, Err(Stop::Spent)), "{method:?} of {text}");
        }
    }
}

#[test]
fn faults(rt: HostRuntime) {
    let mut heap = new_heap(rt.alloc()).expect(&rt, "memory");
    for (method, text, given, fault) in FAULTS {
        match run(&mut heap, *method, text, given, 0) {
            Ok(_) => assert!(rt; false, "{method:?} of {text}"),
            Err(stop) => assert!(rt; name_of(stop) == *fault, "{method:?} of {text}"),
        }
    }
}
