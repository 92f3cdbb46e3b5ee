//! Laws of plans.
ghost use Rattle.std.specs.Prelude.{◌≡◌, ℕ, List, IsTrue, length, map};
ghost use Rattle.mm_schema.specs.Schema.{Schema};
ghost use Rattle.mm_query.specs.Plans.{joins_behind_first, line_alias, plan_of};
ghost use Rattle.mm_query.specs.declared.query.FromItem.{FromItem as Item};
ghost use Rattle.mm_query.specs.declared.query.Query.{Query};

/// A plan has a line for each table of FROM, in their order. The first line is an access to the rows of one table, and each other one is a
/// join.
pub fn plans_go_along_from()
    ensures aliases { (schema : Schema) (counts : List ℕ) (query : Query)
        → map line_alias (plan_of schema counts query) ≡ map (λ (item : Item). item.alias) query.from }
    ensures length { (schema : Schema) (counts : List ℕ) (query : Query) → length (plan_of schema counts query) ≡ length query.from }
    ensures joins { (schema : Schema) (counts : List ℕ) (query : Query) → IsTrue (joins_behind_first (plan_of schema counts query)) }
{}
