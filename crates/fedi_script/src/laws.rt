//! Scripts, read and printed by the definitions.

ghost use Rattle.fedi_script.specs.Rows.{ScriptsAreRead};

/// What is read of three scripts, and what is printed about them; and lines that are refused.
pub fn scripts_are_read()
    ensures { ScriptsAreRead }
{}
