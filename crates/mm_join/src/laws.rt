//! Laws of joins.
ghost use Rattle.std.specs.Prelude.{List, ◌∷◌, ◌++◌, []};
ghost use Rattle.std.specs.List.Sorted.{IsPermutation};
ghost use Rattle.mm_join.specs.Joined.{joined};
ghost use Rattle.mm_query.specs.declared.atom.Atom.{Atom};
ghost use Rattle.mm_query.specs.declared.bound_query.FieldPlace.{FieldPlace};
ghost use Rattle.mm_select.specs.Fitting.{fitting};
ghost use Rattle.mm_value.specs.declared.values.Value.{Value};

/// Law: joining the fitting combinations of some tables with the rows of a further table gives the fitting combinations of them all. So
/// tables may be joined one after another, with the same atoms at each step.
pub fn join_step()
    ensures { (atoms : List (Atom FieldPlace)) (lists outers : List (List (List Value))) (next : List (List Value))
        → IsPermutation outers (fitting atoms lists) → IsPermutation (joined atoms outers next) (fitting atoms (lists ++ next ∷ [])) }
{}
