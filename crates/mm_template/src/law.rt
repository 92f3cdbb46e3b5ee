//! The reading of a line that was cut.
ghost use Rattle.std.specs.Prelude.{◌≡◌, ℕ, List, Ok, Result, IsTrue};
ghost use Rattle.mm_value.specs.declared.refusal.Refusal.{Refusal as Ref};
ghost use Rattle.mm_value.specs.declared.values.Value.{Value as Val};
ghost use Rattle.mm_query.specs.declared.command.Command.{Command};
ghost use Rattle.mm_lang.specs.Reading.{command_takes_memory, reading, takes_memory};
ghost use Rattle.mm_lang.specs.Templates.{holes_of, template_of};
ghost use Rattle.mm_statement.specs.Filling.{IsFilling};
ghost use Rattle.mm_template.specs.Cutting.{IsCut};

/// A line that was cut reads as its template's command filled with its values, and may allocate if that command may.
pub fn cut_lines_read_as_fillings()
    ensures reads { (line template : List ℕ) (values : List Val) (command : Command) (result : Result Command Ref)
        → IsCut line template values → template_of template ≡ Ok command → IsFilling (holes_of template) values command result → reading line ≡ result }
    ensures memory { (line template : List ℕ) (values : List Val) (command : Command) → IsCut line template values
        → template_of template ≡ Ok command → IsTrue (command_takes_memory command) → IsTrue (takes_memory line) }
{}
