//! Cutting of lines.
ghost use Rattle.std.specs.Prelude.{◌≡◌, [], ◌∷◌, ◌++◌, IfSome, true};
ghost use Rattle.mm_template.specs.Cutting.{IsCut};
ghost use Rattle.mm_template.specs.steps.Pieces.{CutsLiteral, Keeps, begins_keyword};
ghost use Rattle.mm_template.specs.steps.Progress.{IsWhole};

use crate::piece::{begins_text, literal_len, operator_at, skip_blanks, skip_kept};
use mm_lang::begins_word;
use mm_value::{Value, read_literal};
use std::alloc::Global;
use std::marker::Model;

/// The most bytes of a line that is cut. Longer lines are mostly lists of values that do not occur again, and the limit keeps the templates
/// that a caller stores small.
const MAX_CUT_BYTES: usize = 512;

/// The most literals of a line that is cut. Lines with more are mostly such lists.
const MAX_LITERALS: usize = 16;

/// Cuts lines into a template and the values of its literals. Keeps the last cut; its allocations are reused.
#[derive(Drop)]
pub struct Cutter {
    template: Vec<u8>,
    values: Vec<Value>,
}

impl Model for Cutter {
    ghost use Rattle.mm_template.specs.Cutting.{Cut};

    ghost Value = { Cut };

    ghost view = { λ cutter. record { template = cutter.template.items; values = cutter.values.items } };
}

impl Cutter {
    /// Returns a cutter without a cut. Allocates nothing.
    pub fn new(alloc: Global) -> Cutter {
        Cutter {
            template: Vec::new(alloc),
            values: Vec::new(alloc),
        }
    }

    /// Cuts a line, without its line feed, and returns whether it was cut. A line is cut if it begins with `SELECT`, `INSERT`, `UPDATE` or
    /// `DELETE`, and has at most 512 bytes and 1 to 16 literals to be cut. It must have no `?` outside a text, no text that is not to be
    /// cut, no byte that is part of no token, and no literal past its limit. The template is the line with a `?` in place of each literal
    /// after a comparison, of each number after a sign, and of each value of an INSERT. A minus directly before digits is cut with them,
    /// except after a word or a sign, where both remain. Allocates only if the line or a text is longer than earlier ones, or there are
    /// more literals; returns false if an allocation fails.
    pub fn cut(&mut self, alloc: Global, line: &[u8]) -> bool
        ensures { result ≡ true → IsCut line.now self.new.template self.new.values }
    {
        self.template.clear();
        self.values.clear();
        if line.len() > MAX_CUT_BYTES || !begins_as_cut_line(line) {
            return false;
        }
        if self.template.reserve(line.len()).is_err() {
            return false;
        }
        let Some(()) = self.cut_pieces(alloc, line) else {
            return false;
        };
        !self.values.is_empty()
    }

    /// Returns the template of the last line, if it was cut.
    pub fn template(&self) -> &[u8]
        ensures { result.now ≡ self.now.template }
    {
        &self.template
    }

    /// Returns the values of the last line's literals in written order, if it was cut.
    pub fn values(&self) -> &[Value]
        ensures { result.now ≡ self.now.values }
    {
        &self.values
    }

    // Cuts the pieces of a line, one after another. Returns `None` if the line is not to be cut.
    fn cut_pieces(&mut self, alloc: Global, line: &[u8]) -> Option<()>
        requires template { self.old.template ≡ [] }
        requires values { self.old.values ≡ [] }
        ensures { IfSome result (λ _. IsWhole line.now self.new.template self.new.values) }
    {
        let is_insert = matches!(line, [b'I', ..]);
        let mut left = line;
        let mut rest = skip_kept(line, is_insert);
        while !rest.is_empty() {
            let operator = operator_at(rest)?;
            let (_, behind) = rest.split_at(operator.len);
            let operand = skip_blanks(behind);
            let len = literal_len(operand, operator.takes_any)?;
            let (literal, after) = operand.split_at(len);
            if len > 0 {
                let kept = &left[..left.len() - operand.len()];
                self.cut_literal(alloc, kept, literal, after)?;
                left = after;
            }
            rest = skip_kept(after, is_insert);
        }
        self.keep(left)
    }

    // Copies bytes of a line to the template, and after them a hole for the next literal. Returns `None` if the next bytes are not a
    // literal, if a word or a text follows them directly, if there are too many literals, or if an allocation fails.
    fn cut_literal(&mut self, alloc: Global, kept: &[u8], bytes: &[u8], behind: &[u8]) -> Option<()>
        ensures { IfSome result (λ _. CutsLiteral self.old self.new kept.now bytes.now behind.now) }
    {
        if self.values.len() >= MAX_LITERALS || begins_word(behind) || begins_text(behind) {
            return None;
        }
        let Ok(value) = read_literal(alloc, bytes) else {
            return None;
        };
        self.push_value(value)?;
        self.keep(kept)?;
        self.push_hole()
    }

    fn push_value(&mut self, value: Value) -> Option<()>
        ensures { IfSome result (λ _. (self.new.template ≡ self.old.template) × (self.new.values ≡ self.old.values ++ value ∷ [])) }
    {
        self.values.push(value).ok()
    }

    fn push_hole(&mut self) -> Option<()>
        ensures { IfSome result (λ _. Keeps self.old self.new (63 ∷ [])) }
    {
        self.template.push(b'?').ok()
    }

    // Copies bytes of a line to the template.
    fn keep(&mut self, bytes: &[u8]) -> Option<()>
        ensures { IfSome result (λ _. Keeps self.old self.new bytes.now) }
    {
        if bytes.is_empty() {
            return Some(());
        }
        self.template.extend_from_slice(bytes).ok()
    }
}

// Returns whether a line begins with a keyword whose lines are cut.
fn begins_as_cut_line(line: &[u8]) -> bool
    ensures { result ≡ true → begins_keyword line.now ≡ true }
{
    let behind = match line {
        [b'S', b'E', b'L', b'E', b'C', b'T', behind @ ..] => behind,
        [b'I', b'N', b'S', b'E', b'R', b'T', behind @ ..] => behind,
        [b'U', b'P', b'D', b'A', b'T', b'E', behind @ ..] => behind,
        [b'D', b'E', b'L', b'E', b'T', b'E', behind @ ..] => behind,
        _ => return false,
    };
    !begins_word(behind)
}
