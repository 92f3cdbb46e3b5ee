//! Columns of texts.
ghost use Rattle.std.specs.Prelude.{◌≡◌, ◌+◌, ◌<◌, ◌≤◌, ◌++◌, ◌∷◌, [], length, map, OnOk, IfOk, slice_get, Some, slice_set, slice_index_or, swap, take};
ghost use Rattle.std.specs.Option.{ForSome};
ghost use Rattle.std.specs.Vec.{vec_capacity};
ghost use Rattle.mm_partition.specs.TextCells.{prefix_of};

use crate::trimming::cut;
use mm_value::{Text, ValueRef, order_prefix};
use std::alloc::{AllocError, Global};
use std::marker::Model;
use std::mem;

/// The texts of a column, a cell for each slot, and their prefixes if they are stored. A prefix is a number that orders most texts without
/// reading them.
#[derive(Drop)]
pub struct TextColumn {
    texts: Vec<Text>,
    prefixes: Option<Vec<u64>>,
}

impl Model for TextColumn {
    ghost use Rattle.mm_partition.specs.TextCells.{TextCells, text_room, KeptPrefixes};

    ghost Value = { TextCells };

    ghost view = { λ c. record { texts = c.texts.items; room = text_room c.texts c.prefixes } };

    ghost invariant = { λ c. KeptPrefixes c.texts.items c.prefixes };
}

impl TextColumn {
    /// Returns an empty column without prefixes. Allocates nothing.
    pub fn new(alloc: Global) -> Self
        ensures { result.texts ≡ [] }
    {
        TextColumn {
            texts: Vec::new(alloc),
            prefixes: None,
        }
    }

    /// Reserves capacity for at least `n` more texts. Fails with `AllocError` if an allocation fails. The texts are unchanged in any case.
    pub fn reserve(&mut self, n: usize) -> Result<(), AllocError>
        ensures texts { self.new.texts ≡ self.old.texts }
        ensures room { self.old.room ≤ self.new.room }
        ensures ok { OnOk result (length self.new.texts + n ≤ self.new.room) }
    {
        self.texts.reserve(n)?;
        match &mut self.prefixes {
            None => Ok(()),
            Some(prefixes) => prefixes.reserve(n),
        }
    }

    /// Appends a text.
    pub fn push(&mut self, text: Text)
        requires { length self.old.texts < self.old.room }
        ensures texts { self.new.texts ≡ self.old.texts ++ text ∷ [] }
        ensures room { self.new.room ≡ self.old.room }
    {
        match &mut self.prefixes {
            None => {}
            Some(prefixes) => prefixes.push_reserved(order_prefix(&ValueRef::Text(&text))),
        }
        self.texts.push_reserved(text);
    }

    /// Exchanges the text in a cell with `text`.
    pub fn swap(&mut self, index: usize, text: &mut Text)
        requires { index < length self.old.texts }
        ensures texts { self.new.texts ≡ slice_set self.old.texts index text.old }
        ensures text { text.new ≡ slice_index_or self.old.texts index text.new }
        ensures room { self.new.room ≡ self.old.room }
    {
        match &mut self.prefixes {
            None => mem::swap(&mut self.texts[index], text),
            Some(prefixes) => {
                prefixes[index] = order_prefix(&ValueRef::Text(text));
                mem::swap(&mut self.texts[index], text);
            }
        }
    }

    /// Exchanges the texts in two cells.
    pub fn exchange(&mut self, a: usize, b: usize)
        requires a { a < length self.old.texts }
        requires b { b < length self.old.texts }
        ensures texts { self.new.texts ≡ swap self.old.texts a b }
        ensures room { self.new.room ≡ self.old.room }
    {
        match &mut self.prefixes {
            None => self.texts.swap(a, b),
            Some(prefixes) => {
                prefixes.swap(a, b);
                self.texts.swap(a, b);
            }
        }
    }

    /// Drops the text in a cell, which becomes empty.
    pub fn clear(&mut self, index: usize)
        requires { index < length self.old.texts }
        ensures texts { self.new.texts ≡ slice_set self.old.texts index [] }
        ensures room { self.new.room ≡ self.old.room }
    {
        let mut text = Text::empty(*self.texts.allocator());
        self.swap(index, &mut text);
    }

    /// Removes the texts from index `n` on, and frees excess capacity.
    pub fn truncate(&mut self, n: usize)
        ensures texts { self.new.texts ≡ take n self.old.texts }
        ensures room { length self.new.texts ≤ self.new.room }
    {
        match &mut self.prefixes {
            None => cut(&mut self.texts, n),
            Some(prefixes) => {
                cut(prefixes, n);
                cut(&mut self.texts, n);
            }
        }
    }

    /// Returns the text in a cell.
    #[inline(always)]
    pub fn text(&self, index: usize) -> &Text
        requires { index < length self.now.texts }
        ensures { result.now ≡ slice_index_or self.now.texts index result.now }
    {
        &self.texts[index]
    }

    /// Returns the prefixes of the texts, if they are stored.
    pub fn prefixes(&self) -> Option<&[u64]>
        ensures { ForSome result (λ prefixes. prefixes.now ≡ map prefix_of self.now.texts) }
    {
        match &self.prefixes {
            None => None,
            Some(prefixes) => Some(prefixes.as_slice()),
        }
    }

    /// Stores the prefixes from now on. Fails with `AllocError` if an allocation fails; then nothing changes.
    pub fn track(&mut self, alloc: Global) -> Result<(), AllocError>
        ensures texts { self.new.texts ≡ self.old.texts }
        ensures room { self.old.room ≤ self.new.room }
    {
        if self.prefixes.is_some() {
            return Ok(());
        }
        let prefixes = prefixes_of(alloc, self.texts.as_slice(), self.texts.capacity())?;
        self.prefixes = Some(prefixes);
        Ok(())
    }

    /// Drops the prefixes, if they are stored.
    pub fn untrack(&mut self)
        ensures texts { self.new.texts ≡ self.old.texts }
        ensures room { self.old.room ≤ self.new.room }
    {
        self.prefixes = None;
    }
}

/// Returns the prefixes of these texts, in a vector with this capacity. Fails with `AllocError` if an allocation fails.
fn prefixes_of(alloc: Global, texts: &[Text], room: usize) -> Result<Vec<u64>, AllocError>
    requires { length texts.now ≤ room }
    ensures items { IfOk result (λ prefixes. prefixes.items ≡ map prefix_of texts.now) }
    ensures room { IfOk result (λ prefixes. vec_capacity prefixes ≡ room) }
{
    let mut prefixes = Vec::with_capacity(alloc, room)?;
    for text in texts {
        prefixes.push_reserved(order_prefix(&ValueRef::Text(text)));
    }
    Ok(prefixes)
}
