ghost use Rattle.std.specs.Prelude.{◌≡◌, ℕ, List, Result, Err};
ghost use Rattle.mt_tree.specs.declared.command.AdminCmd.{AdminCmd};
ghost use Rattle.mt_reader.specs.declared.parse.ParseFault.{ParseFault};
ghost use Rattle.mt_reader.specs.declared.parse.ParseFault.TheVariants.{Memory};
ghost use Rattle.mt_reader.specs.Reading.{ReadsAs, Gives};
ghost use Rattle.mt_adminlang.specs.Command.{SpellsCommand};
ghost use Rattle.mt_adminlang.specs.Inside.{IsCommandInside};

/// A text reads as one command at most.
pub fn commands_are_determined()
    ensures { (text : List ℕ) (a b : AdminCmd) → ReadsAs SpellsCommand text a → ReadsAs SpellsCommand text b → a ≡ b }
{}

/// Each text gives a command, or says why not. It does nothing.
pub fn each_command_text_gives_something()
    ensures { (text : List ℕ) → (r : Result AdminCmd ParseFault) × Gives SpellsCommand IsCommandInside text r × (r ≡ Err Memory → ⊥) }
{}
