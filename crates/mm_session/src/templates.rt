//! Templates of lines that occurred more than once.
ghost use Rattle.std.specs.Prelude.{◌≡◌, ℕ, IfSome, List, Some, length, map};
ghost use Rattle.mm_lang.specs.Templates.{holes_of};
ghost use Rattle.mm_reply.specs.Sinks.{Delivers, IsAnswerTo};
ghost use Rattle.mm_schema.specs.Schema.{Schema};
ghost use Rattle.mm_session.specs.Statements.{line_at};
ghost use Rattle.mm_session.specs.steps.Places.{line_in};
ghost use Rattle.mm_session.specs.steps.Templates.{AreReady, IsBoundAt};
ghost use Rattle.mm_statement.specs.Holes.{hole_count};

use crate::slots::forget_bound_forms;
use crate::statement::Statement;
use crate::template_hash::template_hash;
use crate::template_set::{SETS, TemplateSet};
use crate::template_slots::{fill_at, place_of, put};
use mm_reply::ReplySink;
use mm_template::{Cutter, cut_lines_read_as_fillings};
use mm_txn::Db;
use std::alloc::Global;

/// Templates of lines that occurred more than once, with their bound forms: at most 64 templates of at most 512 bytes each.
#[derive(Drop)]
pub(crate) struct Templates {
    cutter: Cutter,
    /// The statements of the templates, two slots for each set. No slots until the first template is kept.
    slots: Vec<Option<Statement>>,
    sets: [TemplateSet; SETS],
}

impl Templates {
    /// Returns an empty table. Allocates nothing.
    pub(crate) fn new(alloc: Global) -> Templates
        ensures { (schema : Schema) → AreReady schema result }
    {
        Templates {
            cutter: Cutter::new(alloc),
            slots: Vec::new(alloc),
            sets: [TemplateSet::new(); SETS],
        }
    }

    /// Finds the template of a line, writes the line's values into its bound form, and returns the number of its slot. Returns `None` if
    /// the line has to be read: if [`Cutter::cut`] does not cut it, if its template occurs for the first time, if a value has another type
    /// than its column, if the catalog refuses the line, or if an allocation fails.
    pub(crate) fn find(&mut self, alloc: Global, database: &Db, line: &[u8]) -> Option<usize>
        requires { AreReady database.now.schema self.old }
        ensures ready { AreReady database.now.schema self.new }
        ensures found { IfSome result (λ number. IsBoundAt number database.now.schema line.now self.new) }
    {
        cut_lines_read_as_fillings();
        if !self.cutter.cut(alloc, line) {
            return None;
        }
        let number = self.find_cut(alloc, database)?;
        let values = self.cutter.values();
        if fill_at(alloc, database, &mut self.slots, number, values) {
            Some(number)
        } else {
            None
        }
    }

    /// Returns the number of the slot with the template of the line that was cut last. Keeps the template if it occurs again.
    fn find_cut(&mut self, alloc: Global, database: &Db) -> Option<usize>
        requires ready { AreReady database.now.schema self.old }
        requires count { length self.old.cutter.values ≡ hole_count (holes_of self.old.cutter.template) }
        ensures cutter { self.new.cutter ≡ self.old.cutter }
        ensures ready { AreReady database.now.schema self.new }
        ensures found { IfSome result (λ number. line_at number (map line_in self.new.slots.items) ≡ Some self.old.cutter.template) }
    {
        let template = self.cutter.template();
        let hash = template_hash(template);
        let place = (hash % SETS as u64) as usize;
        let set = &mut self.sets[place];
        if let Some(number) = place_of(&self.slots, place, template) {
            set.note_use(number);
            return Some(number);
        }
        if !set.expects(hash) {
            return None;
        }
        let values = self.cutter.values();
        let statement = set.read(alloc, database, hash, template, values)?;
        let number = set.next_number(place);
        put(alloc, &mut self.slots, number, statement)
    }

    /// Runs the statement that [`Templates::find`] filled for a line, and passes the reply to a sink. The catalog is unchanged.
    pub(crate) fn run<S: ReplySink>(
        &mut self,
        alloc: Global,
        database: &mut Db,
        number: usize,
        sink: &mut S,
    ) -> S::Taken
        requires can { S.can_take sink.old }
        requires ready { AreReady database.old.schema self.old }
        requires found { (line : List ℕ) × IsBoundAt number database.old.schema line self.old }
        ensures delivers { (line : List ℕ) → IsBoundAt number database.old.schema line self.old
            → Delivers S.takes sink.old sink.new result database.new (IsAnswerTo line database.old) }
        ensures ready { AreReady database.new.schema self.new }
        ensures schema { database.new.schema ≡ database.old.schema }
    {
        match &mut self.slots[number] {
            Some(statement) => statement.run_filled(alloc, database, sink),
            None => unreachable!(),
        }
    }

    /// Drops all bound forms: the catalog may have changed.
    pub(crate) fn forget(&mut self)
        requires { (schema : Schema) × AreReady schema self.old }
        ensures { (schema : Schema) → AreReady schema self.new }
    {
        forget_bound_forms(&mut self.slots);
        for set in self.sets.iter_mut() {
            set.forget_refusal();
        }
    }
}
