// What holds of every line and of every command.
ghost use Rattle.command.specs.Laws.{CommandLaw};

// Which lines do nothing, that the first word is the command's name, that no number is read as another, and that every command can be written.
pub fn command_laws()
    ensures { CommandLaw }
{}
