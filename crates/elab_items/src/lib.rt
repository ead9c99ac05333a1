//! The items of a module: generate constructs unrolled, drivers and processes, and the instances that are left.
//!
//! What each item adds is a definition by its form (`specs/Items.antt`), and `items` gives what it says, or its fault at its
//! place. Generate blocks are scopes (`specs/Scopes.antt`); an instance binds its ports and waits to be elaborated itself
//! (`specs/Instances.antt`).
//! Meaning: stands on `elab_choices` for what generate constructs choose, and on `elab_scopes`, `elab_drivers` and
//! `elab_binds`. The elaboration of a design asks it for each module.
#![tactic(auto)]

mod instance;
mod item;
mod plan;
mod scopes;

pub use item::items;
pub use plan::{Pending, Plan};
