//! Tables of questions and answers. A line is what is asked: `get`, `set`, `call` or `invoke`, on
//! what, under which name, and with which arguments; an answer begins with the units that it took.

use crate::asking::{answer, host_of};
use host_fields::Host;
use script_values::Stop;
use std::alloc::Global;
use std::process::Abort;

const SOURCE: &str = "const a = [b, , 1]; f(a);";

fn fresh_answer(alloc: Global, line: &str) -> Result<String, Stop> {
    let mut host = host_of(alloc, SOURCE)?;
    answer(&mut host, line, 1000)
}

// Each line is asked of a host of its own.
fn check_rows(rt: &impl Abort, alloc: Global, rows: &[(&str, &str)]) {
    for row in rows {
        let told = match fresh_answer(alloc, row.0) {
            Ok(told) => told,
            Err(_) => String::new(alloc),
        };
        assert!(rt; told.as_str() == row.1, "{} {}", row.0, told);
    }
}

// The lines are asked of one host, in their order.
fn check_run(rt: &impl Abort, host: &mut Host, alloc: Global, rows: &[(&str, &str)]) {
    for row in rows {
        let told = match answer(host, row.0, 1000) {
            Ok(told) => told,
            Err(_) => String::new(alloc),
        };
        assert!(rt; told.as_str() == row.1, "{} {}", row.0, told);
    }
}

#[test]
fn faults(rt: HostRuntime) {
    let rows = [
        ("get null name", "0 NoField"),
        ("get undefined name", "0 NoField"),
        ("set null name 1", "0 NoField"),
        ("set 5 name 1", "0 NoField"),
        ("set @ type 'x", "0 NoField"),
        ("set @ nope 1", "0 NoField"),
        ("set / node null", "0 NoField"),
        ("set root length 1", "0 NoField"),
        ("set [5 length 1", "0 NoField"),
        ("set *0: length 1", "0 NoField"),
        ("set @0012 raw 'x", "0 NoField"),
        ("set / parent null", "0 NoField"),
        ("set scope isGlobal true", "0 NoField"),
        ("set 'abc 0 'x", "0 NoField"),
        ("set true name 1", "0 NoField"),
        ("set j name 1", "0 NoField"),
        ("set Identifier name 1", "0 NoField"),
        ("call / get 'nope", "0 NoField"),
        ("call root get 'nope", "1 NoField"),
        ("call root nope", "0 NoMethod"),
        ("call @ find", "0 NoMethod"),
        ("call *0: pop", "0 NoMethod"),
        ("call *0: reverse", "0 NoMethod"),
        ("call [5 find Identifier", "0 BadOperand"),
        ("call [5 charAt 0", "0 NoMethod"),
        ("call 'abc push 'd", "0 NoMethod"),
        ("call 5 slice 0", "0 NoMethod"),
        ("call scope size", "0 NoMethod"),
        ("call j nope", "0 NoMethod"),
        ("call j identifier", "0 BuilderType"),
        ("call j identifier 5", "0 BuilderType"),
        ("call j identifier 'a 'b", "0 BuilderType"),
        ("call j literal -1", "0 BuilderType"),
        ("call j returnStatement @0", "0 BuilderType"),
        ("call j arrayExpression null", "0 BuilderType"),
        ("call j commentLine 'a", "0 BuilderType"),
        ("call j commentBlock 'a true 1", "0 BuilderType"),
        ("set @000 name 5", "0 BuilderType"),
        ("set @0012 value -1", "0 BuilderType"),
        ("set @ comments 5", "0 BuilderType"),
        ("set @ comments [5", "0 BuilderType"),
        ("set @ comments [{value='a", "0 BuilderType"),
        ("set [5 2 1", "0 BadIndex"),
        ("set [5 -1 1", "0 BadIndex"),
        ("set *0: 3 null", "0 BadIndex"),
        ("call none get", "0 BadIndex"),
        ("set *0: 0 5", "0 BadOperand"),
        ("set @10 callee 5", "0 BadOperand"),
        ("set @001 elements 5", "0 BadOperand"),
        ("set @001 elements [5", "0 BadOperand"),
        ("call root find 5", "0 BadOperand"),
        ("call root find Identifier 5", "0 BadOperand"),
        ("call root find Identifier {name=undefined", "0 BadOperand"),
        ("call root filter 5", "0 BadOperand"),
        ("call root at 'a", "0 BadOperand"),
        ("call root get 1", "0 BadOperand"),
        ("call root isOfType 1", "0 BadOperand"),
        ("call root replaceWith 5", "0 BadOperand"),
        ("call root map match | 5", "1 BadOperand"),
        ("call /0 replace", "0 BadOperand"),
        ("call / get 5", "0 BadOperand"),
        ("call / get 'body 'a", "0 BadOperand"),
        ("call scope lookup 5", "0 BadOperand"),
        ("call scope declares 5", "0 BadOperand"),
        ("call *0: push 5", "0 BadOperand"),
        ("call [5 map 5", "0 BadOperand"),
        ("invoke j 5", "0 BadOperand"),
        ("invoke j [5", "0 BadOperand"),
        ("call j match 5", "0 BadOperand"),
        ("call j match @ 5", "0 BadOperand"),
        ("call j match @ deep", "0 Deep"),
        ("call /000 insertBefore @10", "0 NotInList"),
        ("call / insertAfter @10", "0 NotInList"),
        ("call /000 replace *0:", "0 NotInList"),
        ("invoke j 'other", "0 Foreign"),
        ("call inner toSource", "0 Foreign"),
    ];
    check_rows(&rt, rt.alloc(), &rows);
}

#[test]
fn fields(rt: HostRuntime) {
    let rows = [
        ("get @ type", "0 Program"),
        ("get @ body", "0 *0"),
        ("get @ interpreter", "0 null"),
        ("get @ nope", "0 undefined"),
        ("get @ comments", "0 null"),
        ("get @0 kind", "0 const"),
        ("get @000 name", "0 a"),
        ("get @0012 value", "0 1"),
        ("get @0012 raw", "0 1"),
        ("get @0012 regex", "0 undefined"),
        ("get @10 optional", "0 false"),
        ("get @10 callee", "0 Identifier"),
        ("get *0: length", "0 2"),
        ("get *0:001 length", "0 3"),
        ("get *0:001 0", "0 Identifier"),
        ("get *0:001 1", "0 null"),
        ("get *0:001 3", "0 undefined"),
        ("get *0:001 01", "0 undefined"),
        ("get /0 node", "0 VariableDeclaration"),
        ("get /0 value", "0 VariableDeclaration"),
        ("get /0 parent", "0 /Program"),
        ("get / parent", "0 null"),
        ("get /0 scope", "0 scope Program"),
        ("get scope isGlobal", "0 true"),
        ("get scope parent", "0 null"),
        ("get scope path", "0 /Program"),
        ("get scope node", "0 Program"),
        ("get root length", "0 1"),
        ("get 'abc length", "0 3"),
        ("get 'abc 1", "0 b"),
        ("get 'abc 3", "0 undefined"),
        ("get [5 0", "0 5"),
        ("get {a=7 a", "0 7"),
        ("get {a=7 b", "0 undefined"),
        ("get j Identifier", "0 function"),
        ("get j identifier", "0 function"),
        ("get j Nope", "0 undefined"),
        ("get 5 name", "0 undefined"),
        ("set @000 name 'c", "0 c"),
        ("set @0012 value 'c", "0 c"),
        ("set @0012 value true", "0 true"),
        ("set @0012 value null", "0 null"),
        ("set @10 callee @000", "0 Identifier"),
        ("set @001 elements [null", "0 *0"),
        ("set *0:001 0 @10", "0 CallExpression"),
        ("set *0:001 3 @10", "0 CallExpression"),
        ("set *0:001 0 null", "0 null"),
        ("set @ comments [comment", "0 [object ]"),
        ("set @ comments [", "0 null"),
        ("set @ comments null", "0 null"),
        ("set [5 1 7", "0 7"),
    ];
    check_rows(&rt, rt.alloc(), &rows);
}

#[test]
fn methods(rt: HostRuntime) {
    let rows = [
        (
            "call root find Identifier",
            "10 <Identifier Identifier Identifier Identifier >",
        ),
        (
            "call root find Identifier {name='a",
            "10 <Identifier Identifier >",
        ),
        (
            "call root find CallExpression nested",
            "11 <CallExpression >",
        ),
        ("call root find Identifier match | true", "10 <Identifier >"),
        ("call inner find Program", "5 <>"),
        ("call inner find VariableDeclaration", "5 <>"),
        ("call inner closest Program", "1 <Program >"),
        ("call inner closestScope", "1 <Program >"),
        ("call inner closest Program match | true", "1 <Program >"),
        ("call root filter match | true", "1 <Program >"),
        ("call root forEach match", "1 <Program >"),
        ("call root map match | /0", "1 <VariableDeclaration >"),
        ("call root some match | true", "1 true"),
        ("call root every match | false", "1 false"),
        ("call root size", "1 1"),
        ("call root at -1", "1 <Program >"),
        ("call root at 1", "1 <>"),
        ("call root get 'body 1 'expression", "1 /CallExpression"),
        ("call root get 'body 9", "1 undefined"),
        ("call root paths", "1 [/Program ]"),
        ("call root nodes", "1 [Program ]"),
        ("call root isOfType Program", "1 true"),
        ("call none isOfType Program", "0 false"),
        ("call inner replaceWith @1", "5 <ExpressionStatement >"),
        (
            "call inner replaceWith match | @1",
            "5 <ExpressionStatement >",
        ),
        ("call inner insertBefore [", "1 <VariableDeclaration >"),
        ("call inner remove", "1 <none >"),
        ("call root toSource", "1 print 0"),
        ("call / get 'body 1", "0 /ExpressionStatement"),
        ("call / get 'body", "0 /VariableDeclaration"),
        ("call /0 replace @1", "4 undefined"),
        ("call /0 insertAfter [", "0 undefined"),
        ("call /0 prune", "0 undefined"),
        ("call scope lookup 'a", "10 scope Program"),
        ("call scope lookup 'zzz", "10 null"),
        ("call scope declares 'a", "10 true"),
        ("call scope getBindings", "10 object"),
        ("call Identifier check @000", "0 true"),
        ("call Identifier check @", "0 false"),
        ("call j match @000 {name='a", "0 true"),
        ("call j match @000", "0 true"),
        ("call j match @000 null", "0 true"),
        ("call j match @10 match | 1", "0 true"),
        ("call j identifier 'x", "1 Identifier"),
        ("call j arrayExpression *0:001", "3 ArrayExpression"),
        ("call j commentLine 'a true false", "0 object"),
        ("invoke j source", "0 <Program >"),
        ("invoke j @0", "0 <VariableDeclaration >"),
        ("invoke j [/0", "0 <VariableDeclaration >"),
        ("call *0:001 push @10", "4 4"),
        ("call *0:001 unshift null null", "2 5"),
        ("call *0:001 map match | 1 2 3", "6 [1 2 3 ]"),
        (
            "call *0:001 filter match | 1 0 1",
            "5 [Identifier Literal ]",
        ),
        ("call *0:001 find match | 0 1", "2 null"),
        ("call *0:001 some match | 0 1", "2 true"),
        ("call *0:001 every match | 1 0", "2 false"),
        ("call *0:001 forEach match", "3 undefined"),
        ("call *0:001 reduce match 7 | 8 9 10", "3 10"),
        ("call *0:001 slice 1", "5 [null Literal ]"),
        ("call *0:001 concat 5", "7 [Identifier null Literal 5 ]"),
        ("call *0:001 indexOf null", "3 1"),
        ("call *0:001 includes @0010", "3 true"),
        ("call [5 map match | 6", "2 [6 ]"),
        ("call [5 filter match | 0", "1 []"),
        ("call [5 forEach match", "1 undefined"),
        ("call [5 some match | 0", "1 false"),
        ("call [5 every match | 1", "1 true"),
        ("call [5 find match | 0", "1 undefined"),
        ("call [5 reduce match 7 | 8", "1 8"),
    ];
    check_rows(&rt, rt.alloc(), &rows);
}

// A print is a new one only where a node changed since the last.
#[test]
fn prints(rt: HostRuntime) {
    let rows = [
        ("call root toSource", "1 print 0"),
        ("set @000 name 'c", "0 c"),
        ("call root toSource", "1 print 1"),
        ("call root toSource", "1 print 1"),
        ("call j identifier 'x", "1 Identifier"),
        ("call /0 insertAfter [", "0 undefined"),
        ("set @ comments 5", "0 BuilderType"),
        ("call root toSource", "1 print 1"),
        ("call j arrayExpression [@10", "4 ArrayExpression"),
        ("call root toSource", "1 print 2"),
        ("set *0:001 1 null", "0 null"),
        ("call root toSource", "1 print 3"),
    ];
    let alloc = rt.alloc();
    let mut host = host_of(alloc, SOURCE).expect(&rt, "a host");
    check_run(&rt, &mut host, alloc, &rows);
}

// A list that is read by index and changed by other calls: its length and items are those of now.
#[test]
fn lists(rt: HostRuntime) {
    let rows = [
        ("get *0:001 2", "0 Literal"),
        ("get *0:001 length", "0 3"),
        ("call *0:001 push null @10", "5 5"),
        ("get *0:001 4", "0 CallExpression"),
        ("get *0:001 0", "0 Identifier"),
        ("call /0010 insertBefore @10", "3 undefined"),
        ("get *0:001 0", "0 CallExpression"),
        ("get *0:001 length", "0 6"),
        ("call /0010 prune", "0 undefined"),
        ("get *0:001 length", "0 5"),
        ("call *0:001 unshift null", "1 6"),
        ("get *0:001 0", "0 null"),
        ("get *0:001 5", "0 CallExpression"),
        ("set *0:001 6 @100", "0 Identifier"),
        ("get *0:001 length", "0 7"),
        ("set @001 elements [", "0 *0"),
        ("get *0:001 length", "0 0"),
        ("get *0:001 0", "0 undefined"),
        ("get *0: length", "0 2"),
        ("call /00 prune", "0 undefined"),
        ("get *0: length", "0 1"),
    ];
    let alloc = rt.alloc();
    let mut host = host_of(alloc, SOURCE).expect(&rt, "a host");
    check_run(&rt, &mut host, alloc, &rows);
}
