//! Laws: changes that keep the ties valid.
ghost use Rattle.mm_link.specs.Laws.{FollowsUndo, KeptByCommand, KeptBySameRows, SourceRecordsKeep, StagedRecordKeeps, TargetRecordsKeep};

use super::Link;

impl Link {
    /// Lemma: which edits keep the ties valid, and what the records of a log guarantee so that the ties can follow their undo, one record
    /// after the other. The call does nothing.
    pub fn are_kept(&self)
        ensures rows { KeptBySameRows self.now.reference.column self.now.ties }
        ensures command { KeptByCommand self.now.reference.column self.now.ties }
        ensures source { SourceRecordsKeep self.now.reference self.now.ties }
        ensures target { TargetRecordsKeep self.now.reference self.now.ties }
        ensures staged { StagedRecordKeeps self.now.reference self.now.ties }
        ensures undo { FollowsUndo self.now.reference self.now.ties }
    {
        let _ties = &self.ties;
    }
}
