//! The reply to the last call.
ghost use Rattle.std.specs.Prelude.{◌≡◌, None, Ok};
ghost use Rattle.mm_lang.specs.Answering.{MayLeadTo};
ghost use Rattle.mm_query.specs.declared.command.Command.TheVariants.{Select};
ghost use Rattle.mm_query.specs.declared.query.Query.{Query as AnyQuery};
ghost use Rattle.mm_query.specs.declared.reply.Reply.TheVariants.{Refused};
ghost use Rattle.mm_session.specs.Replies.{reply_lent};
ghost use Rattle.mm_session.specs.Session.{changes_after};
ghost use Rattle.mm_session.specs.steps.Kept.{reply_kept};
ghost use Rattle.mm_txn.specs.Bound.{IsBoundQuery};

use mm_query::{Bound, Reply, RowBuffer};
use mm_reply::ReplySink;
use mm_txn::{Db, Rows};
use mm_value::Refusal;
use std::alloc::Global;
use std::marker::Model;

/// The stored form of the reply to the last call.
#[derive(Drop)]
enum Kept {
    /// No reply.
    Nothing,
    /// The rows in the buffer.
    InBuffer,
    /// Any other reply.
    Other(Reply),
}

/// The stored reply to the last call. Its model is the reply. As a sink, it replaces the last reply by each new one.
#[derive(Drop)]
pub(crate) struct KeptReply {
    /// The rows of the reply, if it has any. The buffer's allocations are reused.
    rows: RowBuffer,
    kept: Kept,
}

impl Model for KeptReply {
    ghost use Rattle.std.specs.Prelude.{Option};
    ghost use Rattle.mm_query.specs.declared.reply.Reply.{Reply as AnyReply};
    ghost use Rattle.mm_session.specs.steps.Kept.{reply_kept};

    ghost Value = { Option AnyReply };

    ghost view = { λ k. reply_kept k.rows k.kept };
}

/// The reply to the last call of a session, borrowed from the session.
#[derive(Drop)]
pub enum LastReply<'s> {
    /// The last call had no reply, or there was no call.
    Nothing,
    /// These rows, in this order.
    Rows(&'s RowBuffer),
    /// Any other reply.
    Other(&'s Reply),
}

impl KeptReply {
    /// Returns no reply. Allocates nothing.
    pub(crate) fn new(alloc: Global) -> KeptReply
        ensures { result ≡ None }
    {
        KeptReply {
            rows: RowBuffer::new(alloc),
            kept: Kept::Nothing,
        }
    }

    /// Borrows the stored reply.
    pub(crate) fn lend(&self) -> LastReply<'_>
        ensures { reply_lent result ≡ self.now }
    {
        match &self.kept {
            Kept::Nothing => LastReply::Nothing,
            Kept::InBuffer => LastReply::Rows(&self.rows),
            Kept::Other(reply) => LastReply::Other(reply),
        }
    }

    /// Adds the rows that the reply counts to a count of changed rows, modulo 2^64.
    pub(crate) fn count_changes(&self, changes: &mut u64)
        ensures { changes.new ≡ changes_after self.now changes.old }
    {
        if let Kept::Other(Reply::Count(rows)) = &self.kept {
            *changes = changes.wrapping_add(*rows as u64);
        }
    }
}

impl ReplySink for KeptReply {
    type Taken = ();

    ghost can_take = { λ _. Unit {0} };

    ghost takes = { λ _ new reply _. new ≡ reply };

    fn take(&mut self, reply: Option<Reply>) {
        self.kept = match reply {
            Some(reply) => Kept::Other(reply),
            None => Kept::Nothing,
        };
    }

    fn take_rows(&mut self, alloc: Global, rows: &Rows<'_>) {
        self.rows.clear();
        self.kept = match rows.copy_into(alloc, &mut self.rows) {
            Ok(()) => Kept::InBuffer,
            Err(_) => Kept::Other(Reply::Refused(Refusal::Memory)),
        };
    }

    fn take_selected(&mut self, alloc: Global, database: &Db, bound: &Bound) {
        select(alloc, database, bound, &mut self.rows, &mut self.kept);
    }
}

/// Runs a bound query, and stores its reply. Replaces the rows of the buffer.
fn select(alloc: Global, database: &Db, bound: &Bound, rows: &mut RowBuffer, kept: &mut Kept)
    requires { (query : AnyQuery) × IsBoundQuery database.now.schema query bound.now }
    ensures { (query : AnyQuery) → IsBoundQuery database.now.schema query bound.now
        → MayLeadTo (Ok (Select query)) database.now (record { reply = reply_kept rows.new kept.new; state = database.now }) }
{
    rows.clear();
    let mut reads = 0;
    match database.select_into(alloc, bound, rows, &mut reads) {
        Ok(()) => keep_rows(kept),
        Err(refusal) => keep_refusal(refusal, kept),
    }
}

/// Makes the rows of the buffer the reply. Moves no reply if the last reply was rows of the buffer too.
fn keep_rows(kept: &mut Kept)
    ensures { kept.new ≡ Kept.InBuffer }
{
    if !matches!(kept, Kept::InBuffer) {
        keep_first_rows(kept);
    }
}

/// Replaces another reply by the rows of the buffer. A separate function, so that rows after rows move no reply.
#[inline(never)]
fn keep_first_rows(kept: &mut Kept)
    ensures { kept.new ≡ Kept.InBuffer }
{
    *kept = Kept::InBuffer;
}

/// Makes a refusal the reply. A separate function, so that rows after rows move no reply.
#[inline(never)]
fn keep_refusal(refusal: Refusal, kept: &mut Kept)
    ensures { kept.new ≡ Kept.Other (Refused refusal) }
{
    *kept = Kept::Other(Reply::Refused(refusal));
}
