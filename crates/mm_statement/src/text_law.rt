//! Laws of literals in place of holes.
ghost use Rattle.std.specs.Prelude.{◌≡◌, ◌≤◌, ℕ, List, [], ◌∷◌, Err, Ok, Result, Some, codes, count_by, false, length, true};
ghost use Rattle.std.specs.List.{AllZip};
ghost use Rattle.mm_value.specs.Literal.{Spells};
ghost use Rattle.mm_value.specs.declared.refusal.Refusal.{Refusal as Ref};
ghost use Rattle.mm_value.specs.declared.refusal.Refusal.TheVariants.{Syntax};
ghost use Rattle.mm_value.specs.declared.values.Value.{Value as Val};
ghost use Rattle.mm_query.specs.declared.command.Command.{Command};
ghost use Rattle.mm_lang.specs.Grammar.{command_of};
ghost use Rattle.mm_lang.specs.Reading.{is_nothing, reading};
ghost use Rattle.mm_lang.specs.Templates.{holes_among, holes_of, template_of};
ghost use Rattle.mm_lang.specs.Tokens.{Hole, Mark, Signed, Token, Word, tokens};
ghost use Rattle.mm_lang.specs.declared.read.token.Symbol.TheVariants.{Minus, Plus};
ghost use Rattle.mm_statement.specs.Filling.{Filled, IsFilling};
ghost use Rattle.mm_statement.specs.Texts.{IsText, filled_line, keeps_signs, with_texts};

/// Tokens with literals of values in place of their holes read as the command with these values in its holes, and as no other command. If
/// there is no such command, for example because a text is given for the number of a shift, they have no reading. A line of at most 4,096
/// bytes with these tokens, and with a value for each hole, reads as the result of filling the command.
pub fn texts_read_as_values()
    ensures filled { (ts texts : List Token) (values : List Val) (command filled : Command) → command_of ts ≡ Some command → AllZip IsText texts values
        → Filled (holes_among ts) values command filled → command_of (with_texts ts texts) ≡ Some filled }
    ensures only { (ts texts : List Token) (values : List Val) (command filled : Command) → command_of ts ≡ Some command → AllZip IsText texts values
        → command_of (with_texts ts texts) ≡ Some filled → Filled (holes_among ts) values command filled }
    ensures lines { (line written : List ℕ) (texts : List Token) (values : List Val) (command : Command) (result : Result Command Ref)
        → is_nothing line ≡ false → template_of line ≡ Ok command → AllZip IsText texts values → length values ≡ count_by (λ hole. hole) (holes_of line)
        → length written ≤ 4096 → tokens written ≡ with_texts (tokens line) texts → IsFilling (holes_of line) values command result
        → reading written ≡ result }
{}

/// A line of at most 4,096 bytes, with a literal in place of each hole, reads as the result of filling its command with the values of these
/// literals. The line reads as no other command. But if a literal with a minus follows the sign of a shift, the line has no reading. The
/// bytes of a literal, such as those of a printed value, are one token, which denotes its value.
pub fn filled_lines_read_as_fillings()
    ensures reads { (line : List ℕ) (texts : List (List ℕ)) (values : List Val) (command : Command) (result : Result Command Ref)
        → template_of line ≡ Ok command → AllZip Spells texts values → length values ≡ count_by (λ hole. hole) (holes_of line)
        → keeps_signs (tokens line) texts ≡ true → length (filled_line line texts) ≤ 4096 → IsFilling (holes_of line) values command result
        → reading (filled_line line texts) ≡ result }
    ensures only { (line : List ℕ) (texts : List (List ℕ)) (values : List Val) (command filled : Command)
        → template_of line ≡ Ok command → AllZip Spells texts values → length values ≡ count_by (λ hole. hole) (holes_of line)
        → keeps_signs (tokens line) texts ≡ true → length (filled_line line texts) ≤ 4096
        → reading (filled_line line texts) ≡ Ok filled → Filled (holes_of line) values command filled }
    ensures refused { (line : List ℕ) (texts : List (List ℕ)) (values : List Val) (command : Command)
        → template_of line ≡ Ok command → AllZip Spells texts values → length values ≡ count_by (λ hole. hole) (holes_of line)
        → keeps_signs (tokens line) texts ≡ false → length (filled_line line texts) ≤ 4096 → reading (filled_line line texts) ≡ Err Syntax }
    ensures tokens { (text : List ℕ) (value : Val) → Spells text value → (token : Token) × IsText token value × (tokens text ≡ token ∷ []) }
{}

/// Worked examples: literals replace holes in written order, with blanks around them, and a `?` in quotes is unchanged. A minus after a
/// sign inverts that sign.
pub fn texts_stand_in_written_order()
    ensures line { filled_line (codes "INSERT t ('?', ?, ?)") (codes "1" ∷ codes "'a'" ∷ []) ≡ codes "INSERT t ('?',  1 ,  'a' )" }
    ensures plus { (digits : List ℕ) → with_texts (Mark Plus ∷ Hole ∷ []) (Signed digits ∷ []) ≡ Mark Minus ∷ Word digits ∷ [] }
    ensures minus { (digits : List ℕ) → with_texts (Mark Minus ∷ Hole ∷ []) (Signed digits ∷ []) ≡ Mark Plus ∷ Word digits ∷ [] }
{}
