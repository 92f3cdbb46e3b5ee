//! Many rows exchanged at once.
ghost use Rattle.std.specs.Prelude.{◌≡◌, ◌≤◌, ◌↔◌, All, length, IsTrue, OnOk, OnErr};
ghost use Rattle.std.specs.declared.cmp.Ordering.TheVariants.{Equal};
ghost use Rattle.mm_schema.specs.Rows.{most_rows};
ghost use Rattle.mm_partition.specs.Places.{slot_at, extent_of, IsUnchanged};
ghost use Rattle.mm_indexed.specs.Exchanges.{ArePairs, ExchangesAll, IsRebuilt};
ghost use Rattle.mm_indexed.specs.Index.{spare_of};
ghost use Rattle.mm_indexed.specs.Kept.{SameTable};
ghost use Rattle.mm_indexed.specs.Twins.{keys_by};

use super::IndexedRows;
use crate::exchange::{Exchange, exchange_rows};
use crate::indexes::rebuilding::rebuild_changed;
use mm_order::OrderedRefs;
use mm_row_order::copy_refs;
use mm_schema::MAX_ROWS;
use std::alloc::{AllocError, Global};

/// If fewer than one in this many rows change, their entries are moved one by one: rebuilding an index takes all rows.
const REBUILT_SHARE: usize = 8;

/// No index is rebuilt for fewer pairs, so that a small change does not allocate.
const FEW_PAIRS: usize = 32;

impl IndexedRows {
    /// Returns whether `exchange_all_kept` rebuilds the changed indexes for that many pairs: there is a further index, there are at least 32
    /// pairs, an eighth of the rows changes, and there are at most 1,048,576 rows.
    pub fn rebuilds(&self, pairs: usize) -> bool
        ensures { IsTrue result ↔ IsRebuilt pairs self.now }
    {
        let rows = self.by_key.len();
        !self.indexes.is_empty()
            && pairs >= FEW_PAIRS
            && pairs >= rows / REBUILT_SHARE
            && rows <= MAX_ROWS
    }

    /// Exchanges the rows of each pair, which have the same key. The index on the key does not change, and a further one only if the rows
    /// of a pair differ in its column: then it is rebuilt, if [`IndexedRows::rebuilds`] allows it. Never fails: if an allocation fails,
    /// the pairs are exchanged one after the other.
    pub fn exchange_all_kept(&mut self, alloc: Global, exchanges: &[Exchange])
        requires pairs { ArePairs (slot_at self.old.places) exchanges.now }
        requires keys { All (λ e. keys_by self.old.key (slot_at self.old.places) e.at e.other ≡ Equal) exchanges.now }
        requires spares { All (λ x. length exchanges.now ≤ spare_of x) self.old.indexes }
        ensures exchanged { ExchangesAll (slot_at self.old.places) (slot_at self.new.places) exchanges.now }
        ensures room { self.new.places.room ≡ self.old.places.room }
        ensures extent { extent_of self.new.places ≡ extent_of self.old.places }
        ensures table { SameTable 0 (length exchanges.now) self.old self.new }
    {
        if !self.rebuilds(exchanges.len()) {
            self.exchange_each_kept(exchanges);
            return;
        }
        if self.exchange_and_rebuild(alloc, exchanges).is_err() {
            self.exchange_each_kept(exchanges);
        }
    }

    /// Exchanges the rows of pairs one after the other.
    fn exchange_each_kept(&mut self, exchanges: &[Exchange])
        requires pairs { ArePairs (slot_at self.old.places) exchanges.now }
        requires keys { All (λ e. keys_by self.old.key (slot_at self.old.places) e.at e.other ≡ Equal) exchanges.now }
        requires spares { All (λ x. length exchanges.now ≤ spare_of x) self.old.indexes }
        ensures exchanged { ExchangesAll (slot_at self.old.places) (slot_at self.new.places) exchanges.now }
        ensures room { self.new.places.room ≡ self.old.places.room }
        ensures extent { extent_of self.new.places ≡ extent_of self.old.places }
        ensures table { SameTable 0 (length exchanges.now) self.old self.new }
    {
        for exchange in exchanges {
            self.exchange_kept(exchange.at, exchange.other);
        }
    }

    /// Exchanges the rows of all pairs, and then rebuilds each index whose column changes. `AllocError` if an allocation fails; then every
    /// slot and every index is as before.
    fn exchange_and_rebuild(
        &mut self,
        alloc: Global,
        exchanges: &[Exchange],
    ) -> Result<(), AllocError>
        requires pairs { ArePairs (slot_at self.old.places) exchanges.now }
        requires keys { All (λ e. keys_by self.old.key (slot_at self.old.places) e.at e.other ≡ Equal) exchanges.now }
        requires few { length self.old.refs ≤ most_rows }
        ensures exchanged { OnOk result (ExchangesAll (slot_at self.old.places) (slot_at self.new.places) exchanges.now) }
        ensures err { OnErr result (IsUnchanged self.old.places self.new.places) }
        ensures room { self.new.places.room ≡ self.old.places.room }
        ensures extent { extent_of self.new.places ≡ extent_of self.old.places }
        ensures table { SameTable 0 (length exchanges.now) self.old self.new }
        ensures kept { OnErr result (SameTable 0 0 self.old self.new) }
    {
        let refs = copy_refs(alloc, &self.by_key)?;
        exchange_rows(&mut self.rows, exchanges);
        self.rows.have_types();
        let indexes = self.indexes.as_mut_slice();
        let refs = refs.as_slice();
        if let Err(refused) = rebuild_changed(
            alloc, &self.rows, self.key, indexes, refs, exchanges,
        ) {
            exchange_rows(&mut self.rows, exchanges);
            self.rows.have_types();
            return Err(refused);
        }
        Ok(())
    }
}
