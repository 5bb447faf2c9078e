//! Why a run of a script stops before its end.

ghost use Rattle.std.specs.Prelude.{◌≡◌};
ghost use Rattle.script_values.specs.Faults.{fault_name};

use std::alloc::{AllocError, AllocFailed};

/// What a script did that has no meaning.
#[derive(Clone, Copy, Debug, PartialEq, Eq)]
pub enum Fault {
    /// A value that is no function is called.
    NotCallable,
    /// A member of undefined or null, or a write that the value does not take.
    NoField,
    /// A method is called that the value does not have.
    NoMethod,
    /// A builder, comment or scalar gets an argument outside its field.
    BuilderType,
    /// A list is written beyond its length.
    BadIndex,
    /// An operand or argument of another type.
    BadOperand,
    /// A number leaves the range.
    Overflow,
    TextLong,
    ListLong,
    NodesFull,
    /// Too many nested evaluations, or levels of a filter.
    Deep,
    /// The place stands in no list.
    NotInList,
    /// A text, node or collection that is not of this file.
    Foreign,
    /// A printed value is returned and a node changed after it was made.
    ChangedAfterPrint,
    /// The exported function returns what has no outcome.
    BadReturn,
    /// A `throw` ran.
    Thrown,
    /// A name is read before its declaration ran.
    EarlyName,
}

impl Fault {
    /// The fault's name, as a row of a report has it.
    #[tactic(auto, unfolding(crate::specs::Faults::fault_name))]
    pub fn name(self) -> &'static str
        ensures { result.now ≡ fault_name self }
    {
        match self {
            Fault::NotCallable => "NotCallable",
            Fault::NoField => "NoField",
            Fault::NoMethod => "NoMethod",
            Fault::BuilderType => "BuilderType",
            Fault::BadIndex => "BadIndex",
            Fault::BadOperand => "BadOperand",
            Fault::Overflow => "Overflow",
            Fault::TextLong => "TextLong",
            Fault::ListLong => "ListLong",
            Fault::NodesFull => "NodesFull",
            Fault::Deep => "Deep",
            Fault::NotInList => "NotInList",
            Fault::Foreign => "Foreign",
            Fault::ChangedAfterPrint => "ChangedAfterPrint",
            Fault::BadReturn => "BadReturn",
            Fault::Thrown => "Thrown",
            Fault::EarlyName => "EarlyName",
        }
    }

    /// 1 to 17, in the order of the variants.
    pub fn number(self) -> u8 {
        match self {
            Fault::NotCallable => 1,
            Fault::NoField => 2,
            Fault::NoMethod => 3,
            Fault::BuilderType => 4,
            Fault::BadIndex => 5,
            Fault::BadOperand => 6,
            Fault::Overflow => 7,
            Fault::TextLong => 8,
            Fault::ListLong => 9,
            Fault::NodesFull => 10,
            Fault::Deep => 11,
            Fault::NotInList => 12,
            Fault::Foreign => 13,
            Fault::ChangedAfterPrint => 14,
            Fault::BadReturn => 15,
            Fault::Thrown => 16,
            Fault::EarlyName => 17,
        }
    }
}

/// Why a run stops: a fault of the script, fuel that is spent, or want of memory.
#[derive(Clone, Copy, Debug, PartialEq, Eq)]
pub enum Stop {
    Fault(Fault),
    Spent,
    NoMemory,
}

impl From<AllocError> for Stop {
    ghost use Rattle.std.specs.Prelude.{◌≡◌};
    ghost use Rattle.script_values.specs.declared.fault.Stop.TheVariants.{NoMemory};

    ghost from_gives = { λ _ stop. stop ≡ NoMemory };

    fn from(_: AllocError) -> Stop {
        Stop::NoMemory
    }
}

impl<T: Drop> From<AllocFailed<T>> for Stop {
    ghost use Rattle.std.specs.Prelude.{◌≡◌};
    ghost use Rattle.script_values.specs.declared.fault.Stop.TheVariants.{NoMemory};

    ghost from_gives = { λ _ stop. stop ≡ NoMemory };

    fn from(_: AllocFailed<T>) -> Stop {
        Stop::NoMemory
    }
}

impl From<Fault> for Stop {
    ghost use Rattle.std.specs.Prelude.{◌≡◌};
    ghost use Rattle.script_values.specs.declared.fault.Stop.TheVariants.{Fault as a_fault};

    ghost from_gives = { λ fault stop. stop ≡ a_fault fault };

    fn from(fault: Fault) -> Stop {
        Stop::Fault(fault)
    }
}

/// A number that names nothing in the heap it is asked of. The heap gives no such number, so this
/// stands for a run that cannot go on.
pub(crate) fn nothing_named() -> Stop
    ensures { result ≡ Stop.NoMemory }
{
    Stop::NoMemory
}
