//! Laws of the grammar.
ghost use Rattle.std.specs.Prelude.{◌≡◌, true, false, List, ◌∷◌, ◌++◌, Some};
ghost use Rattle.std.specs.List.{list_all};
ghost use Rattle.mm_value.specs.Literal.{is_within_limit};
ghost use Rattle.mm_value.specs.declared.values.Value.{Value as Val};
ghost use Rattle.mm_query.specs.declared.command.Command.{Command};
ghost use Rattle.mm_lang.specs.Grammar.{command_of};
ghost use Rattle.mm_lang.specs.Reading.{first_fault, literals_among, literals_of, past_limit};
ghost use Rattle.mm_lang.specs.Spelling.{SpellsCommand};
ghost use Rattle.mm_lang.specs.Tokens.{Token};

/// The parser implements the grammar: tokens read as a command if and only if they spell it, and no tokens spell two commands.
pub fn grammar_is_exact()
    ensures reads { (ts : List Token) (c : Command) → command_of ts ≡ Some c → SpellsCommand ts c }
    ensures spelled { (ts : List Token) (c : Command) → SpellsCommand ts c → command_of ts ≡ Some c }
    ensures one_reading { (ts : List Token) (c d : Command) → SpellsCommand ts c → SpellsCommand ts d → c ≡ d }
{}

/// The literals of a command are those among its tokens, in written order. Digits after a minus are a negative number. Of several literals
/// past their limits, the first in written order is refused.
pub fn literals_are_in_written_order()
    ensures order { (ts : List Token) (c : Command) → command_of ts ≡ Some c → literals_of c ≡ literals_among ts }
    ensures first { (front behind : List Val) (v : Val) → list_all is_within_limit front ≡ true → is_within_limit v ≡ false
        → first_fault (front ++ v ∷ behind) ≡ Some (past_limit v) }
{}
