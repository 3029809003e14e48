//! What commands may do to what rows take.
ghost use Rattle.std.specs.Prelude.{◌≡◌};
ghost use Rattle.stow_commands.specs.Commands.{command_of};
ghost use Rattle.stow_core.specs.Kinds.{kind_in, LeavesStores};
ghost use Rattle.stow_core.specs.declared.kind.Kind.TheVariants.{Read};

use stow_commands::command::Command;

/// What a command may do to what rows take.
#[derive(Clone, Copy)]
pub enum Kind {
    /// Rows go, or what a snapshot shows.
    Removal,
    /// Rows may take more, now or, with a new snapshot, once they change.
    Growth,
    /// Nothing.
    Read,
}

/// What the command may do to what rows take. Each is named, so that a new one is looked at here.
pub fn kind_of(command: Command<'_>) -> Kind
    ensures kind { result ≡ kind_in (command_of command.entry) }
    ensures reads { result ≡ Read → LeavesStores (command_of command.entry) }
{
    match command {
        Command::Del(_) | Command::DropSnapshot(_) => Kind::Removal,
        Command::Change(_, _) | Command::TakeSnapshot => Kind::Growth,
        Command::Ping
        | Command::Echo(_)
        | Command::Get(_)
        | Command::GetMany(_)
        | Command::Exists(_)
        | Command::Length(_)
        | Command::Range(_, _, _)
        | Command::ListSnapshots
        | Command::GetInSnapshot(_, _)
        | Command::RangeInSnapshot(_, _, _, _)
        | Command::ReportUsage => Kind::Read,
    }
}
