//! A run of a script over one file, and what its answer decides.

ghost use Rattle.std.specs.Prelude.{◌≤◌, IfOk};

use crate::frames::Turn;
use crate::machine::{MAX_NESTING, Machine};
use crate::stack::{UNKNOWN, keep};
use host_fields::{Host, View, known_names, view_word};
use script_check::Script;
use script_code::Code;
use script_values::{Fault, MAX_TEXT_UNITS, Native, Stop, Value, Word, take};
use std::alloc::{AllocError, Global};

/// How a run ended. `Printed` answers the tree at the host's root place.
#[derive(Clone, Copy, Debug, PartialEq, Eq)]
pub enum Outcome {
    Printed,
    Nothing,
    Same,
    Fault(ScriptFault),
    Spent,
}

/// A fault and its offset in the script.
#[derive(Clone, Copy, Debug, PartialEq, Eq)]
pub struct ScriptFault {
    pub at: u32,
    pub kind: Fault,
}

/// How a run ended, and the fuel that is left.
#[derive(Clone, Copy, Debug, PartialEq, Eq)]
pub struct Ran {
    pub outcome: Outcome,
    pub left: u64,
}

// The code units of the file's name, which may be too many for a text.
fn name_units(host: &Host, name: &str) -> Result<Vec<u16>, Stop> {
    let mut units = Vec::new(host.alloc);
    for character in name.chars() {
        let mut pair = [0u16; 2];
        for unit in character.encode_utf16(&mut pair) {
            if units.push(*unit).is_err() {
                return Err(Stop::NoMemory);
            }
        }
    }
    Ok(units)
}

// The object of a key and a value, and perhaps of a second pair.
fn object_of(host: &mut Host, fields: &[(Word, Value)]) -> Result<Value, Stop> {
    let object = host.heap.object()?;
    for field in fields {
        host.heap.set_field(object, field.0, field.1)?;
    }
    Ok(Value::Object(object))
}

// The word of a name of ASCII characters.
fn word_of(host: &mut Host, name: &[u8]) -> Result<Word, Stop> {
    let mut units = Vec::new(host.alloc);
    for byte in name {
        if units.push(u16::from(*byte)).is_err() {
            return Err(Stop::NoMemory);
        }
    }
    host.heap.word(&units)
}

fn is_script_function(value: &Value) -> bool {
    matches!(*value, Value::Function(_))
}

impl<'a> Machine<'a> {
    /// Begins a call of the function, or the top level where the value is none.
    pub fn first_turn(&mut self, host: &mut Host, called: Value) -> Result<Turn<'a>, Stop>
        ensures fuel { self.new.fuel ≤ self.old.fuel }
    {
        match called {
            Value::Function(function) => {
                let at = self.at;
                self.enter(host, function, 1, at, 0)
            }
            _ => {
                let code: &'a Code = self.code;
                self.block_of(host, &code.main.hoisted, &code.main.body)
            }
        }
    }

    // Runs the top level.
    fn run_top(&mut self, host: &mut Host) -> Result<(), Stop>
        ensures { self.new.fuel ≤ self.old.fuel }
    {
        let cells = self.code.main.cells;
        if cells != 0 {
            self.environment = host.heap.environment(self.environment, cells)?;
        }
        let _end = self.turns(host, Value::Undefined)?;
        Ok(())
    }

    // Puts the arguments of the exported function on the values, over the function.
    fn keep_arguments(&mut self, host: &mut Host, path: Value) -> Result<(), Stop>
        ensures { self.new.fuel ≤ self.old.fuel }
    {
        let source = word_of(host, b"source")?;
        let jscodeshift = word_of(host, b"jscodeshift")?;
        let short = word_of(host, b"j")?;
        let text = Value::Text(host.text);
        let file = object_of(host, &[(view_word(View::Path), path), (source, text)])?;
        let native = Value::Native(Native::Jscodeshift);
        let again = native;
        let api = object_of(host, &[(jscodeshift, native), (short, again)])?;
        let options = object_of(host, &[])?;
        keep(&mut self.values, self.exported)?;
        keep(&mut self.values, file)?;
        keep(&mut self.values, api)?;
        keep(&mut self.values, options)
    }

    // Calls the exported function: what it answers.
    fn run_exported(&mut self, host: &mut Host, name: &str) -> Result<Value, Stop>
        ensures { self.new.fuel ≤ self.old.fuel }
    {
        let at = self.code.exported_at;
        self.at = at;
        let exported = self.exported;
        if !is_script_function(&exported) {
            return Err(Stop::Fault(Fault::NotCallable));
        }
        let units = name_units(host, name)?;
        take(&mut self.fuel, 1)?;
        if units.len() > MAX_TEXT_UNITS as usize {
            return Err(Stop::Fault(Fault::TextLong));
        }
        let path = Value::Text(host.heap.text(&units)?);
        self.values.clear();
        self.keep_arguments(host, path)?;
        self.turns(host, exported)
    }

    // Runs the whole script.
    fn run_whole(&mut self, host: &mut Host, name: &str) -> Result<Value, Stop>
        ensures { self.new.fuel ≤ self.old.fuel }
    {
        self.run_top(host)?;
        self.run_exported(host, name)
    }
}

// What the answer of the exported function decides.
fn judged(host: &mut Host, answer: Value, at: u32) -> Result<Outcome, Stop> {
    let fault = |kind| Ok(Outcome::Fault(ScriptFault { at, kind }));
    match answer {
        Value::Printed(number) => {
            if number == host.prints && !host.changed {
                Ok(Outcome::Printed)
            } else {
                fault(Fault::ChangedAfterPrint)
            }
        }
        Value::Undefined | Value::Null => Ok(Outcome::Nothing),
        Value::Text(text) => {
            if host.heap.length(text)? == 0 {
                return Ok(Outcome::Nothing);
            }
            let file = host.text;
            if host.heap.same_text(text, file)? {
                return Ok(Outcome::Same);
            }
            fault(Fault::BadReturn)
        }
        _ => fault(Fault::BadReturn),
    }
}

// The outcome of a run that stopped.
fn stopped(stop: Stop, at: u32) -> Result<Outcome, AllocError> {
    match stop {
        Stop::Fault(kind) => Ok(Outcome::Fault(ScriptFault { at, kind })),
        Stop::Spent => Ok(Outcome::Spent),
        Stop::NoMemory => Err(AllocError),
    }
}

/// Prepares a checked script: its words begin with the names that the host knows. A heap that a
/// host of this script is made with has the words of the code as its first.
pub fn prepare(alloc: Global, script: &Script) -> Result<Code, AllocError> {
    let known = known_names(alloc)?;
    script_code::prepare(alloc, &known, script)
}

fn hints_of(host: &Host, count: u32) -> Result<Vec<u32>, AllocError> {
    Ok(Vec::from_elem(host.alloc, 0u32, count as usize)?)
}

/// Runs a prepared script over the file of a new host, whose heap has the words of the code as its
/// first, with the file's name and so much fuel.
pub fn run(code: &Code, host: &mut Host, name: &str, fuel: u64) -> Result<Ran, AllocError>
    ensures { IfOk result (λ ran. ran.left ≤ fuel) }
{
    let mut machine = Machine {
        code,
        fuel,
        frames: Vec::new(host.alloc),
        callers: Vec::new(host.alloc),
        values: Vec::new(host.alloc),
        hints: hints_of(host, code.hints)?,
        base: 0,
        environment: host.heap.outermost(),
        at: code.exported_at,
        call_at: code.exported_at,
        room: MAX_NESTING,
        exported: Value::Undefined,
    };
    let (outcome, left) = match machine.run_whole(host, name) {
        Ok(answer) => match judged(host, answer, code.exported_at) {
            Ok(outcome) => (outcome, machine.fuel),
            Err(stop) => (stopped(stop, code.exported_at)?, machine.fuel),
        },
        Err(Stop::Spent) => (Outcome::Spent, 0),
        Err(stop) => (stopped(stop, machine.at)?, machine.fuel),
    };
    Ok(Ran { outcome, left })
}
