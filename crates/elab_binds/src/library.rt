//! The modules and boxes that instances may name.
ghost use Rattle.std.specs.Prelude.{◌≡◌, ◌⊎◌, IfOk, Some, length};
ghost use Rattle.elab_names.specs.declared.fault.ElabFault.TheVariants.{Memory, NoModule, TwoModules};
ghost use Rattle.elab_names.specs.Answers.{Answers};
ghost use Rattle.elab_binds.specs.Books.{IsWithin, book_of, found_in, library};

use crate::boxes::BoxPorts;
use crate::index::{Found, Index, Listed, enter_boxes, enter_modules};
use elab_names::ElabFault;
use rdc_outside::{Place, Seq};
use std::alloc::{AllocError, Global};
use vlog_tree::Module;

/// The modules and boxes that instances may name. A look-up takes no scan.
#[derive(Drop)]
pub struct Library<'a> {
    pub modules: &'a [Module],
    pub boxes: &'a [BoxPorts],
    index: Index,
    ghost lawful: { book_of index ≡ library modules.now boxes.now },
}

/// No module has the name.
fn no_module(alloc: Global, name: &[u8], place: Place) -> ElabFault
    ensures { (result ≡ Memory) ⊎ (result ≡ NoModule name.now (Some place)) }
{
    match name.to_vec(alloc) {
        Ok(name) => ElabFault::NoModule(Seq::from_vec(name), Some(place)),
        Err(_) => ElabFault::Memory,
    }
}

/// Two have the name.
fn two_modules(alloc: Global, name: &[u8], place: Place) -> ElabFault
    ensures { (result ≡ Memory) ⊎ (result ≡ TwoModules name.now place) }
{
    match name.to_vec(alloc) {
        Ok(name) => ElabFault::TwoModules(Seq::from_vec(name), place),
        Err(_) => ElabFault::Memory,
    }
}

impl<'a> Library<'a> {
    /// All modules and boxes; each name is entered once.
    pub fn new(
        alloc: Global,
        modules: &'a [Module],
        boxes: &'a [BoxPorts],
    ) -> Result<Library<'a>, AllocError>
        ensures modules { IfOk result (λ l. l.modules.now ≡ modules.now) }
        ensures boxes { IfOk result (λ l. l.boxes.now ≡ boxes.now) }
    {
        let mut index = Index::new(alloc);
        enter_modules(alloc, &mut index, modules)?;
        enter_boxes(alloc, &mut index, boxes)?;
        Ok(Library {
            modules,
            boxes,
            index,
        })
    }

    /// The module or the box that a name means where it is instantiated.
    ///
    /// # Errors
    /// `NoModule` where there is none, and `TwoModules` where two modules, or a module and a box, have the name; of two boxes
    /// the first counts.
    #[tactic(auto, unfolding(crate::specs::Books::found_as))]
    pub fn find(&self, alloc: Global, name: &[u8], place: Place) -> Result<Found, ElabFault>
        ensures value { Answers (λ f. f) result (found_in (library self.now.modules.now self.now.boxes.now) name.now place) }
        ensures within { IfOk result (λ f. IsWithin (length self.now.modules.now) (length self.now.boxes.now) f) }
    {
        match self.index.get(name) {
            None => Err(no_module(alloc, name, place)),
            Some(Listed::Once(found)) => Ok(*found),
            Some(Listed::Twice) => Err(two_modules(alloc, name, place)),
        }
    }
}
