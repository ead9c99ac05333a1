//! A reader of what is left.
ghost use Rattle.std.specs.Prelude.{◌≡◌, ◌≤◌, ◌<◌, ◌+◌, ◌++◌, ◌∷◌, [], map, length, drop, IfOk, OnOk, IfSome, IfNone, OnSome};
ghost use Rattle.std.specs.List.{list_any};
ghost use Rattle.std.specs.Str.{bytes_eq};
ghost use Rattle.std.specs.String.{string_bytes};
ghost use Rattle.vlog_items.specs.declared.looking.Ahead.TheVariants.{Coming};
ghost use Rattle.vlog_items.specs.Bytes.{is_in};
ghost use Rattle.vlog_items.specs.Items.{Given, ahead_of, items_of_file, items_of_use, run_of, after_run, FirstIsWithin};

use crate::classes::Class;
use crate::frames::Frame;
use crate::looking::Ahead;
use crate::opening::{hold_name, names_to_come, uncover};
use crate::stepping::{empty_frame, file_frame, use_frame};
use rdc_outside::{Place, Seq};
use std::alloc::{AllocError, Global};
use std::collections::VecDeque;
use std::marker::Model;
use std::mem;

/// Reads what is left, item by item.
#[derive(Debug, Drop)]
pub struct Reader {
    top: Frame,
    below: VecDeque<Frame>,
    /// The macros of the frames that ended since the reader settled.
    spent: VecDeque<Seq<u8>>,
    /// The names of the files that are still to come.
    coming: VecDeque<String>,
    alloc: Global,
}

impl Model for Reader {
    ghost use Rattle.std.specs.Prelude.{◌≡◌, ◌++◌, ◌∷◌, [], true, map};
    ghost use Rattle.vlog_items.specs.Stack.{Reading, named, items_of, names_of};

    ghost Value = { Reading };

    ghost view = { λ reader. record {
      items = items_of (map named reader.coming.items) (reader.top ∷ reader.below.items);
      names = reader.spent.items ++ names_of (reader.top ∷ reader.below.items);
    } };

    ghost invariant = { λ reader. reader.top.done ≡ true → reader.below.items ≡ [] };
}

impl Reader {
    /// A reader of files that are still to come.
    pub fn new(alloc: Global, names: &[String]) -> Result<Reader, AllocError>
        ensures items { IfOk result (λ reader. reader.items ≡ map Given (map string_bytes names.now)) }
        ensures names { IfOk result (λ reader. reader.names ≡ []) }
    {
        Ok(Reader {
            top: empty_frame(alloc),
            below: VecDeque::new(alloc),
            spent: VecDeque::new(alloc),
            coming: names_to_come(alloc, names)?,
            alloc,
        })
    }

    /// What stands first.
    #[inline]
    pub fn ahead(&self) -> Ahead
        ensures { result ≡ ahead_of self.now.items }
    {
        if !self.top.done {
            self.top.ahead()
        } else if self.coming.is_empty() {
            Ahead::Nothing
        } else {
            Ahead::Coming
        }
    }

    /// Goes on by one item.
    #[inline]
    pub fn advance(&mut self) -> Result<(), AllocError>
        ensures items { OnOk result (self.new.items ≡ drop 1 self.old.items) }
        ensures names { OnOk result (self.new.names ≡ self.old.names) }
    {
        if self.top.done {
            self.coming.pop_front();
            return Ok(());
        }
        self.top.step();
        uncover(&mut self.top, &mut self.below, &mut self.spent)
    }

    /// Takes the name of a file that is still to come, where it stands first. No macro is left then.
    pub fn take_name(&mut self) -> Option<String>
        ensures some { IfSome result (λ name. self.old.items ≡ Given (string_bytes name) ∷ self.new.items) }
        ensures names { OnSome result (self.new.names ≡ []) }
        ensures none { IfNone result (ahead_of self.old.items ≡ Coming → ⊥) }
        ensures same { IfNone result (self.new ≡ self.old) }
    {
        if !self.top.done {
            return None;
        }
        let name = self.coming.pop_front()?;
        self.spent.clear();
        self.top = empty_frame(self.alloc);
        Some(name)
    }

    /// Begins to count the macros from the item that stands first.
    pub fn settle(&mut self)
        ensures items { self.new.items ≡ self.old.items }
        ensures within { FirstIsWithin self.new.names self.new.items }
    {
        self.spent.clear();
    }

    /// Whether the item that was first when the reader settled stands within a replacement of this macro.
    pub fn is_within(&self, name: &[u8]) -> bool
        ensures { result ≡ list_any (bytes_eq name.now) self.now.names }
    {
        hold_name(&self.spent, &self.top, &self.below, name)
    }

    /// Puts a file in front, whose bytes stand within the same macros.
    pub fn put_file(&mut self, bytes: Vec<u8>, file: u32) -> Result<(), AllocError>
        requires { length bytes.items ≤ 16777216 }
        ensures items { OnOk result (self.new.items ≡ items_of_file self.old.names (record { file = file; line = 1; col = 1 }) bytes.items ++ self.old.items) }
        ensures length { OnOk result (length self.new.items ≡ length bytes.items + 1 + length self.old.items) }
    {
        self.put_frame(bytes, file)?;
        Ok(())
    }

    fn put_frame(&mut self, bytes: Vec<u8>, file: u32) -> Result<(), AllocError>
        requires { length bytes.items ≤ 16777216 }
        ensures { OnOk result (self.new.items ≡ items_of_file self.old.names (record { file = file; line = 1; col = 1 }) bytes.items ++ self.old.items) }
    {
        let names = mem::replace(&mut self.spent, VecDeque::new(self.alloc));
        let frame = file_frame(bytes, file, names);
        let old = mem::replace(&mut self.top, frame);
        self.below.push_front(old)?;
        Ok(())
    }

    /// Puts the replacement of a macro in front, whose bytes stand within that macro too.
    pub fn put_use(&mut self, name: Seq<u8>, bytes: Vec<u8>, place: Place) -> Result<(), AllocError>
        ensures items { OnOk result (self.new.items ≡ items_of_use (name ∷ self.old.names) place bytes.items ++ self.old.items) }
        ensures length { OnOk result (length self.new.items ≡ length bytes.items + length self.old.items) }
    {
        if bytes.is_empty() {
            return Ok(());
        }
        let mut names = mem::replace(&mut self.spent, VecDeque::new(self.alloc));
        names.push_front(name)?;
        let frame = use_frame(bytes, place, names);
        let old = mem::replace(&mut self.top, frame);
        self.below.push_front(old)?;
        Ok(())
    }

    /// Takes the bytes in front that are of a class.
    pub fn run(&mut self, class: Class) -> Result<Vec<u8>, AllocError>
        ensures value { IfOk result (λ bytes. bytes.items ≡ run_of (is_in class) self.old.items) }
        ensures items { OnOk result (self.new.items ≡ after_run (is_in class) self.old.items) }
        ensures names { OnOk result (self.new.names ≡ self.old.names) }
        ensures shorter { OnOk result (length self.new.items ≤ length self.old.items) }
    {
        let mut bytes = Vec::new(self.alloc);
        'bytes: while let Ahead::Read(b, _) = self.ahead() {
            if !class.has(b) {
                return Ok(bytes);
            }
            bytes.push(b)?;
            self.advance()?;
        }
        Ok(bytes)
    }

    /// Drops the bytes in front that are of a class.
    pub fn skip(&mut self, class: Class) -> Result<(), AllocError>
        ensures items { OnOk result (self.new.items ≡ after_run (is_in class) self.old.items) }
        ensures names { OnOk result (self.new.names ≡ self.old.names) }
        ensures shorter { OnOk result (length self.new.items ≤ length self.old.items) }
    {
        'bytes: while let Ahead::Read(b, _) = self.ahead() {
            if !class.has(b) {
                return Ok(());
            }
            self.advance()?;
        }
        Ok(())
    }
}
