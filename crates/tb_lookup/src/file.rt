//! The names that a file gives to its structs and functions.

ghost use Rattle.std.specs.Prelude.{◌≡◌, ◌+◌, ◌++◌, ◌∷◌, [], map, IfOk, OnOk};
ghost use Rattle.tb_names.specs.Names.{told};
ghost use Rattle.tb_names.specs.Repeats.{foreign_names};
ghost use Rattle.tb_lookup.specs.Files.{named_in, entry, getchar_entry, item_entries, counted, entries_from, first_counts, file_names};

use indexmap::IndexMap;
use std::alloc::{AllocError, Global};
use std::marker::Model;
use tb_ast::{ForeignFunction, Ident, Item, ItemKind};
use tb_names::Word;

/// What a name of a file stands for.
#[derive(Clone, Copy, Debug, PartialEq, Eq)]
pub enum Named {
    /// The struct of this number: structs are counted in the order of the text, from 1.
    Struct(u32),
    /// The function of this number: functions are counted in the order of the text, from 0.
    Function(u32),
    /// The function `getchar` outside.
    Getchar,
}

/// How many structs and functions have numbers.
#[derive(Clone, Copy, Debug)]
pub struct Counts {
    structs: u32,
    functions: u32,
}

fn next(number: u32) -> Result<u32, AllocError>
    ensures { IfOk result (λ next. next ≡ number + 1) }
{
    match number.checked_add(1) {
        Some(next) => Ok(next),
        None => Err(AllocError),
    }
}

impl Counts {
    /// With the item's. There are fewer than 2^32 of each.
    fn with(self, kind: &ItemKind) -> Result<Counts, AllocError>
        ensures { IfOk result (λ counts. counts ≡ counted self kind.now) }
    {
        let mut counts = self;
        match kind {
            ItemKind::Struct(_) => counts.structs = next(counts.structs)?,
            ItemKind::Function(_) => counts.functions = next(counts.functions)?,
            _ => {}
        }
        Ok(counts)
    }
}

/// A name, and what it stands for.
#[derive(Debug, Drop)]
pub struct Entry {
    name: Word,
    named: Named,
}

/// The names of a file. Contracts see them as a list in the order of the text.
#[derive(Drop)]
pub struct FileNames {
    alloc: Global,
    entries: Vec<Entry>,
    by_name: IndexMap<Word, Named>,
}

impl Model for FileNames {
    ghost use Rattle.std.specs.Prelude.{List};
    ghost use Rattle.tb_lookup.specs.declared.file.Entry.{Entry};
    ghost use Rattle.tb_lookup.specs.Files.{IsIndex};

    ghost Value = { List Entry };

    ghost view = { λ file. file.entries.items };

    ghost invariant = { λ file. IsIndex file.entries.items file.by_name };
}

impl FileNames {
    fn none(alloc: Global) -> FileNames
        ensures { result ≡ [] }
    {
        FileNames {
            alloc,
            entries: Vec::new(alloc),
            by_name: IndexMap::new(alloc),
        }
    }

    #[tactic(auto, using(crate::proofs::Entries::named_in_more))]
    fn add(&mut self, ident: &Ident, named: Named) -> Result<(), AllocError>
        ensures { OnOk result (self.new ≡ self.old ++ entry ident.now named ∷ []) }
    {
        let bytes = ident.name.bytes.as_slice();
        let key = Word::new(self.alloc, bytes)?;
        let name = Word::new(self.alloc, bytes)?;
        self.entries.push(Entry { name, named })?;
        match self.by_name.insert(key, named) {
            Ok(_) => Ok(()),
            Err(_) => {
                self.entries.pop();
                Err(AllocError)
            }
        }
    }

    fn add_outside(&mut self, functions: &[ForeignFunction]) -> Result<(), AllocError>
        ensures { OnOk result (self.new ≡ self.old ++ map getchar_entry (foreign_names functions.now)) }
    {
        for function in functions {
            if function.name.name.bytes.as_slice() == b"getchar".as_slice() {
                self.add(&function.name, Named::Getchar)?;
            }
        }
        Ok(())
    }

    fn add_item(&mut self, counts: Counts, kind: &ItemKind) -> Result<(), AllocError>
        ensures { OnOk result (self.new ≡ self.old ++ item_entries counts kind.now) }
    {
        match kind {
            ItemKind::Use(_) => Ok(()),
            ItemKind::Struct(item) => self.add(&item.name, Named::Struct(counts.structs)),
            ItemKind::Function(function) => {
                self.add(&function.name, Named::Function(counts.functions))
            }
            ItemKind::Extern(block) => self.add_outside(block.functions.as_slice()),
        }
    }

    /// The names of a file. It answers with an error where it is out of memory.
    pub fn of(alloc: Global, items: &[Item]) -> Result<FileNames, AllocError>
        ensures names { IfOk result (λ file. file ≡ file_names items.now) }
    {
        let mut file = FileNames::none(alloc);
        let mut counts = Counts {
            structs: 1,
            functions: 0,
        };
        for item in items {
            file.add_item(counts, &item.kind)?;
            counts = counts.with(&item.kind)?;
        }
        Ok(file)
    }

    /// What the name stands for in the file.
    pub fn get(&self, name: &[u8]) -> Option<Named>
        ensures named { result ≡ named_in self.now name.now }
    {
        self.by_name.get(name).copied()
    }
}
