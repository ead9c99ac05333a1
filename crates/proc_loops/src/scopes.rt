//! Scopes, from the outermost loop inward.
ghost use Rattle.std.specs.Prelude.{◌≡◌, [], ◌∷◌, ◌++◌, IfOk, OnOk};
ghost use Rattle.vlog_const.specs.Names.{no_values, values_of, with_value};
ghost use Rattle.proc_loops.specs.Headers.{running};
ghost use Rattle.proc_loops.specs.Scopes.{stands};

use crate::names::assigns;
use crate::scope::{Known, Scope};
use std::alloc::{AllocError, Global};
use vlog_const::{ConstValue, Env};
use vlog_tree::{Loop, Name, Stmt};

impl Scope {
    /// Outside of all loops.
    #[tactic(auto, unfolding(crate::specs::Scopes::set_all))]
    pub fn new(alloc: Global) -> Scope
        ensures { values_of result.env ≡ no_values }
    {
        Scope {
            env: Env::new(alloc),
            known: Vec::new(alloc),
        }
    }

    /// Whether a name has a value, or has none.
    pub fn stands(&self, name: &[u8], known: bool) -> bool
        ensures { result ≡ stands known (values_of self.now.env) name.now }
    {
        let is_known = self.env.get(name).is_some();
        if known { is_known } else { !is_known }
    }

    /// The same variables.
    #[tactic(auto, using(crate::proofs::ScopeLemmas::sets), unfolding(crate::specs::Scopes::set_all))]
    fn copied(&self, alloc: Global) -> Result<Scope, AllocError>
        ensures { IfOk result (λ scope. values_of scope.env ≡ values_of self.now.env) }
    {
        let mut env = Env::new(alloc);
        let mut known = Vec::new(alloc);
        for k in &self.known {
            match set(alloc, &mut env, k.name.as_slice(), k.value) {
                Ok(()) => {}
                Err(fault) => return Err(fault),
            }
            match keep(alloc, &mut known, k.name.as_slice(), k.value) {
                Ok(()) => {}
                Err(fault) => return Err(fault),
            }
        }
        Ok(Scope { env, known })
    }

    /// The same, but for one name.
    fn entered(&self, alloc: Global, name: &[u8], value: ConstValue) -> Result<Scope, AllocError>
        ensures { IfOk result (λ scope. values_of scope.env ≡ with_value (values_of self.now.env) name.now value) }
    {
        let Scope { mut env, mut known } = self.copied(alloc)?;
        set(alloc, &mut env, name, value)?;
        keep(alloc, &mut known, name, value)?;
        Ok(Scope { env, known })
    }

    /// Inside a loop, where its variable has a value, unless the body assigns it.
    #[tactic(auto, unfolding(crate::specs::Headers::running))]
    pub fn running(
        &self,
        alloc: Global,
        header: &Loop,
        body: &Stmt,
        value: ConstValue,
    ) -> Result<Scope, AllocError>
        ensures { IfOk result (λ scope. values_of scope.env ≡ running (values_of self.now.env) header.now body.now value) }
    {
        let name = header.variable.name.as_slice();
        if assigns(body, name) {
            return self.copied(alloc);
        }
        self.entered(alloc, name, value)
    }
}

/// Gives a name a value.
fn set(alloc: Global, env: &mut Env, name: &[u8], value: ConstValue) -> Result<(), AllocError>
    ensures { OnOk result (values_of env.new ≡ with_value (values_of env.old) name.now value) }
{
    let name = Vec::from_slice(alloc, name)?;
    env.set(name, value)
}

/// Puts a name with its value at the end.
fn keep(
    alloc: Global,
    known: &mut Vec<Known>,
    name: &[u8],
    value: ConstValue,
) -> Result<(), AllocError>
    ensures { OnOk result (known.new.items ≡ known.old.items ++ (record { name = name.now; value = value }) ∷ []) }
{
    let name = Name::from_slice(alloc, name)?;
    known.push(Known { name, value })?;
    Ok(())
}
