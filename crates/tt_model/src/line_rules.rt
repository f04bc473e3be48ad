//! Which lines are answered in any memory.
ghost use Rattle.std.specs.Prelude.{◌≡◌};
ghost use Rattle.tt_model.specs.Step.{takes_memory};

use tt_parse::Command;

/// Whether a line may be answered that memory is wanting. Commit, rollback, flush, and the lines for a durable commit
/// and for the positions never are.
pub fn takes_memory(command: &Command) -> bool
    ensures { result ≡ takes_memory command.now }
{
    !matches!(
        command,
        Command::Commit
            | Command::Rollback
            | Command::Flush
            | Command::DurableCommit
            | Command::Bookmark
    )
}
