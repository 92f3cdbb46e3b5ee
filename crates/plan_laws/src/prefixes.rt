//! Laws of the prefixes of values.
ghost use Rattle.std.specs.Prelude.{◌≡◌, ◌<◌, ◌^◌, ◌-◌, ℕ, ℤ, ◌<ℤ◌, ◌≤ℤ◌, All, List, get_or, negsuc, pos};
ghost use Rattle.mm_value.specs.Prefix.{order_prefix};
ghost use Rattle.mm_value.specs.declared.values.Value.TheVariants.{Int, Text};

/// A prefix contains as much of its value as it has room for. Two texts with the same prefix have the same first 7 bytes, where a
/// missing byte counts as 0. Two numbers from -2^62 to 2^62 - 1 with the same prefix are equal. Numbers have smaller prefixes than texts.
pub fn prefixes_keep_first_bytes()
    ensures texts { (a b : List ℕ) → All (λ byte. byte < 256) a → All (λ byte. byte < 256) b → order_prefix (Text a) ≡ order_prefix (Text b)
        → (place : ℕ) → place < 7 → get_or a place 0 ≡ get_or b place 0 }
    ensures numbers { (a b : ℤ) → negsuc (2 ^ 62 - 1) ≤ℤ a → a <ℤ pos (2 ^ 62) → negsuc (2 ^ 62 - 1) ≤ℤ b → b <ℤ pos (2 ^ 62)
        → order_prefix (Int a) ≡ order_prefix (Int b) → a ≡ b }
    ensures kinds { (number : ℤ) (text : List ℕ) → order_prefix (Int number) < order_prefix (Text text) }
{}
