//! Errors of a command, recorded while its names are resolved.
ghost use Rattle.std.specs.Prelude.{◌≡◌, ◌||◌, false};
ghost use Rattle.std.specs.Option.{option_map_or};
ghost use Rattle.mm_schema.specs.Columns.{same_type};
ghost use Rattle.mm_schema.specs.Refused.{first_refusal};
ghost use Rattle.mm_value.specs.declared.col_type.ColType.TheVariants.{Text};
ghost use Rattle.mm_query.specs.Faults.{fault_conditions, noted};
ghost use Rattle.mm_query.specs.Placing.{differ};

use mm_value::{ColType, Refusal};

/// A resolved column name. `P` is the type of a position.
#[derive(Clone, Copy)]
pub(crate) struct Resolved<P> {
    /// The position of the column, or 0 if the column does not exist.
    pub place: P,
    /// The type of the column, or `None` if the column does not exist.
    pub col_type: Option<ColType>,
}

/// Errors of a command whose tables exist.
#[derive(Clone, Copy)]
pub(crate) struct Faults {
    /// A column or a position of ORDER does not exist.
    pub column: bool,
    /// An alias, or a column in SET, occurs twice.
    pub duplicate: bool,
    /// An alias does not exist.
    pub alias: bool,
    /// Two sides differ in type, or a number is added to a text.
    pub mismatch: bool,
    /// A count exceeds its limit.
    pub too_many: bool,
}

impl Faults {
    /// Returns the first refusal in the order of refusals, or `None` if there is no error. A duplicate is refused as `taken`.
    pub fn refusal(&self, taken: Refusal) -> Option<Refusal>
        ensures { result ≡ first_refusal (fault_conditions taken self.now) }
    {
        if self.column {
            Some(Refusal::NoSuchColumn)
        } else if self.duplicate {
            Some(taken)
        } else if self.alias {
            Some(Refusal::NoSuchAlias)
        } else if self.mismatch {
            Some(Refusal::TypeMismatch)
        } else if self.too_many {
            Some(Refusal::TooMany)
        } else {
            None
        }
    }

    /// Records a type mismatch if the types of both sides are known and differ.
    pub fn compare(&mut self, left: Option<ColType>, right: Option<ColType>)
        ensures { self.new ≡ noted false false (differ left right) self.old }
    {
        self.mismatch = self.mismatch || differ(left, right);
    }

    /// Records a type mismatch if the types of both sides are known and differ, or if the right side, to which a number is added, is a
    /// text.
    pub fn compare_shifted(&mut self, left: Option<ColType>, right: Option<ColType>)
        ensures { self.new ≡ noted false false (differ left right || option_map_or (same_type Text) right false) self.old }
    {
        self.mismatch = self.mismatch || differ(left, right) || is_text(right);
    }
}

/// Returns whether two types are known and differ.
fn differ(a: Option<ColType>, b: Option<ColType>) -> bool
    ensures { result ≡ differ a b }
{
    match (a, b) {
        (Some(a), Some(b)) => a != b,
        _ => false,
    }
}

/// Returns whether a type is known and is that of texts.
fn is_text(col_type: Option<ColType>) -> bool
    ensures { result ≡ option_map_or (same_type Text) col_type false }
{
    match col_type {
        Some(col_type) => col_type == ColType::Text,
        None => false,
    }
}
