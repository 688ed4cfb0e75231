use crate::changes::{retag_in, root_rows, unguard_in};
use crate::events::{access_in, free_in, release_in};
use crate::pruning::{clear_in, is_noted_in, note_in, remove_in};
use crate::queries::{folds_in, greatest_of, is_leaf_in, less_than, only_child_in, states_in};
use crate::row::PlainRow;
use std::alloc::{AllocError, Global};
use std::marker::Model;
use std::sync::ledger::Ledger;
use tb_perm::{BorrowTree, Kind, NewTag, PruneTree, Span, State, Steps, Tag, TreeError};
use tb_shape::Shape;

/// A tree of tags that keeps one state for every tag and byte. Contracts see its rows, how many
/// bytes it has, and the tags that are noted.
#[derive(Drop)]
pub struct PlainTree {
    shape: Shape,
    rows: Vec<PlainRow>,
    size: u32,
}

impl Model for PlainTree {
    ghost use Rattle.tb_plain.specs.Plain.{Plain, IsPlain, rows_in, notes_of};

    ghost Value = { Plain };

    ghost view = { λ t. record { rows = rows_in t.shape t.rows.items; size = t.size; notes = notes_of t.rows.items } };

    ghost invariant = { λ t. IsPlain t.shape t.rows.items t.size };
}

impl PlainTree {
    ghost use Rattle.std.specs.Prelude.{◌≡◌};
    ghost use Rattle.std.specs.Option.{option_map};
    ghost use Rattle.tb_plain.specs.Plain.{states_of};

    /// The state of a tag at each byte; none where it has no row.
    pub fn states_of(&self, tag: Tag) -> Option<&[State]>
        ensures { option_map (λ states. states.now) result ≡ states_of self.now.rows tag.0 }
    {
        states_in(&self.shape, &self.rows, tag)
    }
}

impl BorrowTree for PlainTree {
    ghost rows = { λ t. t.rows };

    ghost extent = { λ t. t.size };

    ghost notes = { λ t. t.notes };

    fn root(alloc: Global, size: u32, tag: Tag, made: Span) -> Result<PlainTree, AllocError> {
        let rows = root_rows(alloc, size, tag, made)?;
        match Shape::new(alloc, tag.0) {
            Ok(shape) => Ok(PlainTree { shape, rows, size }),
            Err(_) => Err(AllocError),
        }
    }

    fn access<L: Ledger>(
        &mut self,
        tag: Tag,
        lo: u32,
        hi: u32,
        kind: Kind,
        steps: &mut Steps<L>,
    ) -> Result<(), TreeError> {
        access_in(&self.shape, &mut self.rows, self.size, tag, lo, hi, kind)
    }

    fn retag<L: Ledger>(&mut self, new: NewTag, steps: &mut Steps<L>) -> Result<(), TreeError> {
        retag_in(&mut self.shape, &mut self.rows, self.size, new)
    }

    fn release<L: Ledger>(&mut self, tag: Tag, steps: &mut Steps<L>) -> Result<(), TreeError> {
        release_in(&self.shape, &mut self.rows, self.size, tag)
    }

    fn unguard(&mut self, tag: Tag) {
        unguard_in(&mut self.rows, tag);
    }

    fn dealloc<L: Ledger>(&mut self, tag: Tag, steps: &mut Steps<L>) -> Result<(), TreeError> {
        free_in(&self.shape, &mut self.rows, self.size, tag)
    }
}

impl PruneTree for PlainTree {
    fn note(&mut self, tag: Tag) {
        note_in(&mut self.rows, tag);
    }

    fn noted(&self, tag: Tag) -> bool {
        is_noted_in(&self.rows, tag)
    }

    fn clear_notes(&mut self) {
        clear_in(&mut self.rows);
    }

    fn greatest(&self) -> Tag {
        greatest_of(&self.shape, &self.rows, self.size)
    }

    fn below(&self, tag: Tag) -> Option<Tag> {
        less_than(&self.shape, &self.rows, self.size, tag)
    }

    fn count(&self) -> u64 {
        self.rows.len() as u64
    }

    fn is_leaf(&self, tag: Tag) -> bool {
        is_leaf_in(&self.shape, &self.rows, self.size, tag)
    }

    fn only_child(&self, tag: Tag) -> Option<Tag> {
        only_child_in(&self.shape, &self.rows, self.size, tag)
    }

    fn folds(&self, tag: Tag, child: Tag, guarded: bool) -> bool {
        folds_in(&self.shape, &self.rows, self.size, tag, child, guarded)
    }

    fn remove(&mut self, tag: Tag) {
        remove_in(&mut self.shape, &mut self.rows, self.size, tag);
    }
}
