//! The arguments that the program takes.

ghost use Rattle.std.specs.Prelude.{◌≡◌};
ghost use Rattle.fedi_program.specs.Usage.{usage_text};

/// One line for each command.
const USAGE: &str = "fedi usage
fedi init STORE HOST
fedi add-actor STORE NAME [--locked]
fedi add-peer STORE HOST KEY ADDRESS [--relay]
fedi inetd STORE
fedi serve STORE ADDRESS
fedi deliver STORE
fedi export STORE actors|activities|queue
fedi check STORE
fedi migrate OLD NEW
fedi report STORE NAME KIND
fedi demo NUMBER
fedi play
";

/// One line for each command, each ending in LF.
#[tactic(auto, unfolding(crate::specs::Usage::usage_text))]
pub fn usage() -> &'static str
    ensures { result.now ≡ usage_text }
{
    USAGE
}
