//! Why a program is no script.

ghost use Rattle.std.specs.Prelude.{◌≡◌};
ghost use Rattle.script_check.specs.Names.{form_name};

use std::alloc::AllocError;

/// The rule that a node breaks.
#[derive(Clone, Copy, Debug, PartialEq, Eq)]
pub enum FormKind {
    /// The node is outside the subset.
    Subset,
    /// No scope declares the name, and it is no global one.
    NoName,
    /// The name is declared a second time in its block, or the export is the second.
    Twice,
    /// Nothing is exported.
    NoExport,
    /// A constant or the name of a function is written.
    ConstWrite,
}

impl FormKind {
    /// The name that the program prints.
    #[tactic(auto, unfolding(crate::specs::Names::form_name))]
    pub fn name(self) -> &'static str
        ensures { result.now ≡ form_name self }
    {
        match self {
            FormKind::Subset => "Subset",
            FormKind::NoName => "NoName",
            FormKind::Twice => "Twice",
            FormKind::NoExport => "NoExport",
            FormKind::ConstWrite => "ConstWrite",
        }
    }
}

/// Where a program breaks a rule of scripts, a byte offset, and which.
#[derive(Clone, Copy, Debug, PartialEq, Eq)]
pub struct ScriptForm {
    pub at: u32,
    pub kind: FormKind,
}

/// Why a program is not taken as a script.
#[derive(Clone, Copy, Debug, PartialEq, Eq)]
pub enum ScriptError {
    Form(ScriptForm),
    NoMemory,
}

impl From<AllocError> for ScriptError {
    ghost use Rattle.std.specs.Prelude.{◌≡◌};
    ghost use Rattle.script_check.specs.declared.form.ScriptError.TheVariants.{NoMemory};

    ghost from_gives = { λ _ error. error ≡ NoMemory };

    fn from(_: AllocError) -> ScriptError {
        ScriptError::NoMemory
    }
}
