//! What each name of a module means, without a scan.
ghost use Rattle.std.specs.Prelude.{◌≡◌, OnOk};
ghost use Rattle.std.specs.Option.{option_copied};
ghost use Rattle.elab_binds.specs.Books.{book_of, box_entered, boxes_from, module_entered, modules_from, no_books, with_box, with_listed, with_module};

use crate::boxes::BoxPorts;
use std::alloc::{AllocError, Global};
use std::collections::HashMap;
use vlog_tree::Module;

/// What a name means, by its place among all modules or among all boxes.
#[derive(Clone, Copy, Debug, PartialEq, Eq)]
pub enum Found {
    Module(usize),
    Box(usize),
}

/// What is known of a name.
#[derive(Clone, Copy, Debug, PartialEq, Eq)]
pub(crate) enum Listed {
    Once(Found),
    /// Two modules, or a module and a box, have it.
    Twice,
}

/// What each name means.
#[derive(Drop)]
pub(crate) struct Index {
    table: HashMap<Vec<u8>, Listed>,
}

/// What a name means with a module more.
#[tactic(auto, unfolding(crate::specs::Books::with_module))]
fn with_module(before: Option<Listed>, k: usize) -> Listed
    ensures { result ≡ with_module before k }
{
    match before {
        None => Listed::Once(Found::Module(k)),
        Some(_) => Listed::Twice,
    }
}

/// What a name means with a box more.
#[tactic(auto, unfolding(crate::specs::Books::with_box))]
fn with_box(before: Option<Listed>, k: usize) -> Listed
    ensures { result ≡ with_box before k }
{
    match before {
        None => Listed::Once(Found::Box(k)),
        Some(Listed::Once(Found::Box(first))) => Listed::Once(Found::Box(first)),
        Some(Listed::Once(Found::Module(_))) => Listed::Twice,
        Some(Listed::Twice) => Listed::Twice,
    }
}

impl Index {
    /// No name means anything. The table keeps the allocator.
    pub(crate) fn new(alloc: Global) -> Index
        ensures { book_of result ≡ no_books }
    {
        Index {
            table: HashMap::new(alloc),
        }
    }

    /// What is known of a name.
    pub(crate) fn get(&self, name: &[u8]) -> Option<&Listed>
        ensures { option_copied result ≡ book_of self.now name.now }
    {
        self.table.get(name)
    }

    /// What a name means, in the place of what it meant.
    fn set(&mut self, name: Vec<u8>, listed: Listed) -> Result<(), AllocError>
        ensures { OnOk result (book_of self.new ≡ with_listed (book_of self.old) name.items listed) }
    {
        self.table.insert(name, listed)?;
        Ok(())
    }

    /// One more module.
    fn enter_module(&mut self, alloc: Global, name: &[u8], k: usize) -> Result<(), AllocError>
        ensures { OnOk result (book_of self.new ≡ module_entered (book_of self.old) k name.now) }
    {
        let listed = with_module(self.get(name).copied(), k);
        self.set(name.to_vec(alloc)?, listed)
    }

    /// One more box.
    fn enter_box(&mut self, alloc: Global, name: &[u8], k: usize) -> Result<(), AllocError>
        ensures { OnOk result (book_of self.new ≡ box_entered (book_of self.old) k name.now) }
    {
        let listed = with_box(self.get(name).copied(), k);
        self.set(name.to_vec(alloc)?, listed)
    }
}

/// All modules.
pub(crate) fn enter_modules(
    alloc: Global,
    index: &mut Index,
    modules: &[Module],
) -> Result<(), AllocError>
    ensures { OnOk result (book_of index.new ≡ modules_from (book_of index.old) 0 modules.now) }
{
    for (k, module) in modules.iter().enumerate() {
        index.enter_module(alloc, module.name.name.as_slice(), k)?;
    }
    Ok(())
}

/// All boxes.
pub(crate) fn enter_boxes(
    alloc: Global,
    index: &mut Index,
    boxes: &[BoxPorts],
) -> Result<(), AllocError>
    ensures { OnOk result (book_of index.new ≡ boxes_from (book_of index.old) 0 boxes.now) }
{
    for (k, one) in boxes.iter().enumerate() {
        index.enter_box(alloc, one.module.as_slice(), k)?;
    }
    Ok(())
}
