//! Edits of slots.
ghost use Rattle.std.specs.Prelude.{◌≡◌};
ghost use Rattle.std.specs.List.{sum_by};
ghost use Rattle.mm_tables.specs.Commands.{is_delete};
ghost use Rattle.mm_tables.specs.Edits.{came_by, has_new_key, kept_by, key_places, places, key_places_back, places_back};

use crate::index_room::IndexRoom;
use mm_value::RowRef;

/// An edit of the slots of a table. One value is the request and the undo record: it names slots, and their rows stay in them.
#[derive(Clone, Copy)]
pub enum Edit {
    /// A new row was moved into a hidden slot.
    Stage(RowRef),
    /// A hidden row is used.
    Insert(RowRef),
    /// A row in use and a hidden row with the same key are exchanged.
    Update(RowRef, RowRef),
    /// A row in use and a hidden row are exchanged, whatever their keys.
    Move(RowRef, RowRef),
    /// A row in use is hidden.
    Delete(RowRef),
}

impl Edit {
    /// Returns the most entries that the edit and its undo together insert.
    pub(crate) fn room(self) -> IndexRoom
        ensures key { result.key ≡ key_places self }
        ensures indexes { result.indexes ≡ places self }
    {
        let (key, indexes) = match self {
            Edit::Stage(_) => (0, 0),
            Edit::Insert(_) | Edit::Delete(_) => (1, 1),
            Edit::Update(..) => (0, 2),
            Edit::Move(..) => (2, 2),
        };
        IndexRoom { key, indexes }
    }

    /// Returns the most entries that the undo of the edit inserts.
    pub(crate) fn owed(self) -> IndexRoom
        ensures key { result.key ≡ key_places_back self }
        ensures indexes { result.indexes ≡ places_back self }
    {
        let (key, indexes) = match self {
            Edit::Stage(_) | Edit::Insert(_) => (0, 0),
            Edit::Update(..) => (0, 1),
            Edit::Move(..) | Edit::Delete(_) => (1, 1),
        };
        IndexRoom { key, indexes }
    }

    /// Returns the slot that the edit made hidden.
    pub(crate) fn kept(self) -> Option<RowRef>
        ensures { result ≡ kept_by self }
    {
        match self {
            Edit::Stage(at) | Edit::Delete(at) => Some(at),
            Edit::Insert(_) | Edit::Update(..) | Edit::Move(..) => None,
        }
    }

    /// Returns the row that the edit brings into use, or whose values it replaces.
    pub(crate) fn came(self) -> Option<RowRef>
        ensures { result ≡ came_by self }
    {
        match self {
            Edit::Insert(at) | Edit::Update(at, _) | Edit::Move(at, _) => Some(at),
            Edit::Stage(_) | Edit::Delete(_) => None,
        }
    }

    /// Returns whether the edit is a deletion.
    pub(crate) fn is_delete(self) -> bool
        ensures { result ≡ is_delete self }
    {
        matches!(self, Edit::Delete(_))
    }

    /// Returns whether the row that the edit brings into use may have a new key. Only an `Update` keeps the key.
    pub(crate) fn has_new_key(self) -> bool
        ensures { result ≡ has_new_key self }
    {
        match self {
            Edit::Insert(_) | Edit::Move(..) => true,
            Edit::Stage(_) | Edit::Update(..) | Edit::Delete(_) => false,
        }
    }
}

/// Returns the most entries that edits and their undo insert together.
pub fn room_for(edits: &[Edit]) -> IndexRoom
    ensures key { result.key ≡ sum_by key_places edits.now }
    ensures indexes { result.indexes ≡ sum_by places edits.now }
{
    let mut room = IndexRoom { key: 0, indexes: 0 };
    for edit in edits {
        let more = edit.room();
        room.key += more.key;
        room.indexes += more.indexes;
    }
    room
}
