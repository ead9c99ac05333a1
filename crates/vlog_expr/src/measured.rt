//! Expressions with their depths, so that no depth is counted twice.

ghost use Rattle.std.specs.Prelude.{◌≡◌, ◌+◌, ◌<◌, ◌^◌, [], ◌∷◌, ◌++◌, IfOk, OnOk};
ghost use Rattle.vlog_tree.specs.declared.expr.Expr.TheVariants as e;
ghost use Rattle.vlog_tree.specs.Depth.{depth, deepest_of};

use rdc_outside::Place;
use sqlite_items::{Boxed, Items};
use std::alloc::{AllocError, Global};
use std::marker::Model;
use vlog_tree::{Binary, Expr, Name, Number, Part, Unary, fitted, sole};

/// An expression, and how deep it is.
#[derive(Drop)]
pub(crate) struct Measured {
    expr: Expr,
    levels: usize,
}

impl Model for Measured {
    ghost use Rattle.std.specs.Coded.{codes};
    ghost use Rattle.vlog_tree.specs.declared.expr.Expr.{Expr};
    ghost use Rattle.vlog_tree.specs.contracts.expr.Expr as contract;

    ghost Value = { Expr };

    ghost coded = { Prim.hlevel (codes, contract.the_row.coded) };

    ghost use Rattle.std.specs.Prelude.{◌≡◌};
    ghost use Rattle.vlog_tree.specs.Depth.{depth};

    ghost view = { λ m. m.expr };

    ghost invariant = { λ m. m.levels ≡ depth m.expr };
}

/// Expressions, and how deep the deepest is.
#[derive(Drop)]
pub(crate) struct MeasuredList {
    exprs: Items<Expr>,
    levels: usize,
}

impl Model for MeasuredList {
    ghost use Rattle.std.specs.Prelude.{List};
    ghost use Rattle.std.specs.Coded.{codes, coded_list};
    ghost use Rattle.vlog_tree.specs.declared.expr.Expr.{Expr};
    ghost use Rattle.vlog_tree.specs.contracts.expr.Expr as contract;

    ghost Value = { List Expr };

    ghost coded = { coded_list (Prim.hlevel (codes, contract.the_row.coded)) };

    ghost use Rattle.std.specs.Prelude.{◌≡◌};
    ghost use Rattle.vlog_tree.specs.Depth.{depth, deepest_of};

    ghost view = { λ m. m.exprs };

    ghost invariant = { λ m. m.levels ≡ deepest_of depth m.exprs };
}

#[tactic(auto, using(vlog_tree::proofs::DepthLemmas::depths))]
impl Measured {
    pub(crate) fn depth(&self) -> usize
        ensures { result ≡ depth self.now }
    {
        self.levels
    }

    pub(crate) fn into_expr(self) -> Expr
        ensures { result ≡ self }
    {
        let Measured { expr, levels: _ } = self;
        expr
    }

    pub(crate) fn number(
        alloc: Global,
        place: Place,
        number: Number,
    ) -> Result<Measured, AllocError>
        ensures { IfOk result (λ m. m ≡ e.Number place number) }
    {
        Ok(Measured {
            expr: Expr::Number(place, Boxed::new(alloc, number)?),
            levels: 1,
        })
    }

    pub(crate) fn name(place: Place, name: Name) -> Measured
        ensures { result ≡ e.Name place name }
    {
        Measured {
            expr: Expr::Name(place, name),
            levels: 1,
        }
    }

    pub(crate) fn index(
        alloc: Global,
        place: Place,
        name: Name,
        index: Measured,
    ) -> Result<Measured, AllocError>
        requires { depth index + 1 < 2 ^ 64 }
        ensures { IfOk result (λ m. m ≡ e.Index place name index) }
    {
        let Measured { expr, levels } = index;
        Ok(Measured {
            expr: Expr::Index(place, name, Boxed::new(alloc, expr)?),
            levels: levels + 1,
        })
    }

    pub(crate) fn select(
        alloc: Global,
        place: Place,
        name: Name,
        part: Part,
        first: Measured,
        second: Measured,
    ) -> Result<Measured, AllocError>
        requires left { depth first + 1 < 2 ^ 64 }
        requires right { depth second + 1 < 2 ^ 64 }
        ensures { IfOk result (λ m. m ≡ e.Select part place name first second) }
    {
        let levels = first.levels.max(second.levels) + 1;
        let left = Boxed::new(alloc, first.into_expr())?;
        let right = Boxed::new(alloc, second.into_expr())?;
        Ok(Measured {
            expr: Expr::Select(part, place, name, left, right),
            levels,
        })
    }

    pub(crate) fn brackets(
        alloc: Global,
        place: Place,
        inner: Measured,
    ) -> Result<Measured, AllocError>
        requires { depth inner + 1 < 2 ^ 64 }
        ensures { IfOk result (λ m. m ≡ e.Brackets place inner) }
    {
        let Measured { expr, levels } = inner;
        Ok(Measured {
            expr: Expr::Brackets(place, Boxed::new(alloc, expr)?),
            levels: levels + 1,
        })
    }

    pub(crate) fn concat(
        alloc: Global,
        place: Place,
        members: MeasuredList,
    ) -> Result<Measured, AllocError>
        requires { deepest_of depth members + 1 < 2 ^ 64 }
        ensures { IfOk result (λ m. m ≡ e.Concat place members) }
    {
        let MeasuredList { exprs, levels } = members;
        Ok(Measured {
            expr: Expr::Concat(place, fitted(alloc, exprs)?),
            levels: levels + 1,
        })
    }

    pub(crate) fn repeat(
        alloc: Global,
        place: Place,
        count: Measured,
        members: MeasuredList,
    ) -> Result<Measured, AllocError>
        requires left { depth count + 1 < 2 ^ 64 }
        requires right { deepest_of depth members + 1 < 2 ^ 64 }
        ensures { IfOk result (λ m. m ≡ e.Repeat place count members) }
    {
        let levels = count.levels.max(members.levels) + 1;
        let MeasuredList { exprs, levels: _ } = members;
        let exprs = fitted(alloc, exprs)?;
        let count = Boxed::new(alloc, count.into_expr())?;
        Ok(Measured {
            expr: Expr::Repeat(place, count, exprs),
            levels,
        })
    }

    pub(crate) fn unary(
        alloc: Global,
        place: Place,
        op: Unary,
        operand: Measured,
    ) -> Result<Measured, AllocError>
        requires { depth operand + 1 < 2 ^ 64 }
        ensures { IfOk result (λ m. m ≡ e.Unary place op operand) }
    {
        let Measured { expr, levels } = operand;
        Ok(Measured {
            expr: Expr::Unary(place, op, Boxed::new(alloc, expr)?),
            levels: levels + 1,
        })
    }

    pub(crate) fn binary(
        alloc: Global,
        place: Place,
        op: Binary,
        left: Measured,
        right: Measured,
    ) -> Result<Measured, AllocError>
        requires left { depth left + 1 < 2 ^ 64 }
        requires right { depth right + 1 < 2 ^ 64 }
        ensures { IfOk result (λ m. m ≡ e.Binary place op left right) }
    {
        let levels = left.levels.max(right.levels) + 1;
        let left = Boxed::new(alloc, left.into_expr())?;
        let right = Boxed::new(alloc, right.into_expr())?;
        Ok(Measured {
            expr: Expr::Binary(place, op, left, right),
            levels,
        })
    }

    pub(crate) fn conditional(
        alloc: Global,
        place: Place,
        test: Measured,
        yes: Measured,
        no: Measured,
    ) -> Result<Measured, AllocError>
        requires test { depth test + 1 < 2 ^ 64 }
        requires left { depth yes + 1 < 2 ^ 64 }
        requires right { depth no + 1 < 2 ^ 64 }
        ensures { IfOk result (λ m. m ≡ e.Conditional place test yes no) }
    {
        let levels = test.levels.max(yes.levels.max(no.levels)) + 1;
        let test = Boxed::new(alloc, test.into_expr())?;
        let yes = Boxed::new(alloc, yes.into_expr())?;
        let no = Boxed::new(alloc, no.into_expr())?;
        Ok(Measured {
            expr: Expr::Conditional(place, test, yes, no),
            levels,
        })
    }
}

#[tactic(auto, using(vlog_tree::proofs::DepthLemmas::depths))]
impl MeasuredList {
    /// One expression.
    pub(crate) fn of(alloc: Global, first: Measured) -> Result<MeasuredList, AllocError>
        ensures value { IfOk result (λ m. m ≡ first ∷ []) }
        ensures deep { IfOk result (λ m. deepest_of depth m ≡ depth first) }
    {
        let Measured { expr, levels } = first;
        let exprs = sole(alloc, expr)?;
        Ok(MeasuredList { exprs, levels })
    }

    /// One more expression at the end.
    pub(crate) fn push(&mut self, next: Measured) -> Result<(), AllocError>
        ensures { OnOk result (self.new ≡ self.old ++ next ∷ []) }
    {
        let Measured { expr, levels } = next;
        self.exprs.push(expr)?;
        self.levels = self.levels.max(levels);
        Ok(())
    }
}
