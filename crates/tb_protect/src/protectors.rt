ghost use Rattle.std.specs.Prelude.{◌≡◌, ◌≢◌, ◌<◌, [], ◌∷◌, All, IfOk, OnOk, OnErr, length, cond};
ghost use Rattle.std.specs.List.{AllPairs};
ghost use Rattle.tb_perm.specs.declared.tag.Prov.{Prov};
ghost use Rattle.tb_perm.specs.declared.perm.Guard.{Guard};
ghost use Rattle.tb_perm.specs.declared.perm.Guard.TheVariants.{Free};
ghost use Rattle.tb_protect.specs.Frames.{Guarded, kind_of, is_prov, is_in, top_frame, frames_below, provs_of, with_guarded};

use crate::index::{Key, enter, forget, guard_of};
use crate::stack::top_provs;
use std::alloc::{AllocError, Global};
use std::collections::HashMap;
use std::marker::Model;
use tb_perm::{Guard, Prov};

/// The guarded provenances of all calls that run. Contracts see them as a list of frames, the top one
/// first, each the list of its provenances with their guards. No provenance stands twice, and no guard
/// is free.
#[derive(Drop)]
pub struct Protectors {
    // of all frames, the bottom frame's first
    provs: Vec<Prov>,
    // where each frame's begin
    starts: Vec<usize>,
    // the guards of all frames, so that no frame is searched
    index: HashMap<Key, Guard>,
}

impl Model for Protectors {
    ghost use Rattle.std.specs.Prelude.{List};
    ghost use Rattle.std.specs.HashMap.{get};
    ghost use Rattle.tb_protect.specs.Frames.{Guarded};
    ghost use Rattle.tb_protect.specs.Kept.{IsStack, frames_of, same_key};

    ghost Value = { List (List Guarded) };

    ghost view = { λ s. frames_of (get same_key s.index) s.starts.items s.provs.items };

    ghost invariant = { λ s. IsStack (get same_key s.index) s.starts.items s.provs.items };
}

impl Protectors {
    /// No frame at all.
    pub fn new(alloc: Global) -> Result<Protectors, AllocError>
        ensures { IfOk result (λ protectors. protectors ≡ []) }
    {
        Ok(Protectors {
            provs: Vec::new(alloc),
            starts: Vec::new(alloc),
            index: HashMap::new(alloc),
        })
    }

    /// Puts a frame without provenances on top. After want of memory nothing is changed.
    pub fn push_frame(&mut self) -> Result<(), AllocError>
        ensures ok { OnOk result (self.new ≡ [] ∷ self.old) }
        ensures err { OnErr result (self.new ≡ self.old) }
    {
        match self.starts.push(self.provs.len()) {
            Ok(()) => Ok(()),
            Err(_) => Err(AllocError),
        }
    }

    /// Adds a provenance, which no frame has yet, to the top frame, which is there. Its guard is not free.
    /// After want of memory nothing is changed.
    pub fn protect(&mut self, prov: Prov, guard: Guard) -> Result<(), AllocError>
        requires frame { 0 < length self.old }
        requires guarded { guard ≢ Free }
        requires fresh { kind_of self.old prov ≡ Free }
        ensures ok { OnOk result (self.new ≡ with_guarded prov guard self.old) }
        ensures kinds { OnOk result ((asked : Prov) → kind_of self.new asked ≡ cond (is_prov asked prov) guard (kind_of self.old asked)) }
        ensures err { OnErr result (self.new ≡ self.old) }
    {
        match self.provs.reserve(1) {
            Ok(()) => {}
            Err(_) => return Err(AllocError),
        }
        enter(&mut self.index, prov, guard)?;
        match self.provs.push(prov) {
            Ok(()) => Ok(()),
            Err(_) => unreachable!(),
        }
    }

    /// How a provenance is guarded; it is free where no frame has it. No frame is searched.
    pub fn kind_of(&self, prov: Prov) -> Guard
        ensures { result ≡ kind_of self.now prov }
    {
        guard_of(&self.index, prov)
    }

    /// The provenances of the top frame, which is there, in the order in which they came. Each stands once
    /// and is guarded.
    pub fn frame_list(&self) -> &[Prov]
        requires { 0 < length self.now }
        ensures value { result.now ≡ provs_of (top_frame self.now) }
        ensures once { AllPairs (λ (p q : Prov). p ≢ q) result.now }
        ensures guarded { All (λ (p : Prov). kind_of self.now p ≢ Free) result.now }
    {
        top_provs(&self.provs, &self.starts)
    }

    /// Takes away the top frame, which is there, and with it the guards of its provenances.
    pub fn pop_frame(&mut self)
        requires { 0 < length self.old }
        ensures value { self.new ≡ frames_below self.old }
        ensures kinds { (asked : Prov) → kind_of self.new asked ≡ cond (is_in asked (top_frame self.old)) Free (kind_of self.old asked) }
    {
        let Some(start) = self.starts.pop() else {
            unreachable!();
        };
        forget(&mut self.index, &self.provs, start);
        self.provs.truncate(start);
    }
}
