//! Rebuilding indexes over the same rows after their values have changed.
ghost use Rattle.std.specs.Prelude.{◌≡◌, ◌≢◌, ◌<◌, length, unwrap_or, All, AllPairs, IfOk, OnOk, OnErr};
ghost use Rattle.mm_partition.specs.Places.{slot_at, IsLive, IsHidden};
ghost use Rattle.mm_indexed.specs.Exchanges.{Follows};
ghost use Rattle.mm_indexed.specs.Index.{EachTurns, column_of, kind_of, spare_of};

use crate::exchange::{Exchange, agree_in};
use crate::indexes::index::Index;
use mm_order::OrderedRefs;
use mm_partition::Partitions;
use mm_schema::IndexKind;
use mm_value::RowRef;
use std::alloc::{AllocError, Global};

impl Index {
    /// Returns the kind of the index.
    fn kind(&self) -> IndexKind
        ensures { result ≡ kind_of self.now }
    {
        match self {
            Index::Tree { .. } => IndexKind::Tree,
            Index::Hash { .. } => IndexKind::Hash,
        }
    }

    /// Returns the capacity for more entries.
    fn spare(&self) -> usize
        ensures { result ≡ spare_of self.now }
    {
        match self {
            Index::Tree { refs, .. } => refs.spare(),
            Index::Hash { pairs, .. } => pairs.spare(),
        }
    }

    /// Returns the index that replaces this one after exchanges, over all rows in use, or `None` if the rows of each pair agree in its
    /// column. The entries of the pairs are in the new index, so it needs that much less capacity. `AllocError` if an allocation fails.
    fn rebuilt(
        &self,
        alloc: Global,
        rows: &Partitions,
        key: usize,
        refs: &[RowRef],
        exchanges: &[Exchange],
    ) -> Result<Option<Index>, AllocError>
        requires key { key < length rows.now.types }
        requires column { column_of self.now < length rows.now.types }
        requires refs { All (IsLive rows.now) refs.now }
        requires apart { AllPairs (λ a b. a ≢ b) refs.now }
        requires live { All (λ e. IsLive rows.now e.at) exchanges.now }
        requires hidden { All (λ e. IsHidden rows.now e.other) exchanges.now }
        ensures { IfOk result (λ rebuilt. Follows key (slot_at rows.now) refs.now exchanges.now self.now (unwrap_or rebuilt self.now)) }
    {
        let column = self.column();
        if agree_in(rows, column, exchanges) {
            return Ok(None);
        }
        let more = self.spare().saturating_sub(exchanges.len());
        let rebuilt = Index::with_room(alloc, rows, column, key, self.kind(), refs, more)?;
        Ok(Some(rebuilt))
    }
}

/// Rebuilds each index in whose column the rows of a pair differ, over all rows in use after the exchanges. No index is replaced before all
/// are built. `AllocError` if an allocation fails; then no index changes.
pub fn rebuild_changed(
    alloc: Global,
    rows: &Partitions,
    key: usize,
    indexes: &mut [Index],
    refs: &[RowRef],
    exchanges: &[Exchange],
) -> Result<(), AllocError>
    requires key { key < length rows.now.types }
    requires columns { All (λ x. column_of x < length rows.now.types) indexes.old }
    requires refs { All (IsLive rows.now) refs.now }
    requires apart { AllPairs (λ a b. a ≢ b) refs.now }
    requires live { All (λ e. IsLive rows.now e.at) exchanges.now }
    requires hidden { All (λ e. IsHidden rows.now e.other) exchanges.now }
    ensures ok { OnOk result (EachTurns (Follows key (slot_at rows.now) refs.now exchanges.now) indexes.old indexes.new) }
    ensures err { OnErr result (indexes.new ≡ indexes.old) }
{
    let Some((first, rest)) = indexes.split_first_mut() else {
        return Ok(());
    };
    let rebuilt = first.rebuilt(alloc, rows, key, refs, exchanges)?;
    rebuild_changed(alloc, rows, key, rest, refs, exchanges)?;
    if let Some(index) = rebuilt {
        *first = index;
    }
    Ok(())
}
