//! What a run says of one name.

use js_lexer::SyntaxKind;
use script_check::FormKind;
use script_values::Fault;
use tree_check::Rule;
use tree_core::Address;

/// Why a file, a folder or a script has no answer. Offsets count bytes.
#[derive(Debug, Drop)]
pub enum RowError {
    /// Nothing has the name.
    Missing,
    /// The store failed as it read the name, and counted it.
    ReadFault,
    /// The store failed as it listed the name, and counted it.
    ListFault,
    /// The store failed as it wrote the new text, and counted it.
    WriteFault,
    /// So many entries of the folder have names that are not UTF-8.
    Unnamed { count: u64 },
    /// The folder stands more than 64 levels below the one that was named.
    FolderDeep,
    /// There are more than 2,097,152 bytes.
    TooLong,
    /// The byte at the offset is the first that begins no UTF-8 character.
    NotUtf8 { at: u32 },
    /// The source is no program, or nests too deep: at this offset, for this reason.
    Syntax { at: u32, kind: SyntaxKind },
    /// The script stopped at this offset of its own.
    Script { at: u32, kind: Fault },
    /// The script used its fuel up.
    Spent,
    /// The tree that the script made breaks the rule at the node of this address.
    BadNode { address: Address, rule: Rule },
    /// The text that was made of the tree is not read as that tree.
    NotReadBack,
    /// The program breaks a rule of scripts at this offset. Of scripts alone.
    Form { at: u32, kind: FormKind },
}

/// What a run says of one file.
#[derive(Debug, Drop)]
pub enum RowAnswer {
    /// The script made a new text.
    Ok,
    /// The script made the text that there was.
    Unmodified,
    /// The script made no text.
    Skipped,
    Error(RowError),
}
