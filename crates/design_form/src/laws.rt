//! Laws of values. They compute nothing.

ghost use Rattle.design_form.specs.ConstantLaws.{AgreesWithConstants};
ghost use Rattle.design_form.specs.ValueLaws.{HaveWidths, RaisesValues, SettlesValues};

/// A word in a context has the context's width.
pub fn values_have_widths()
    ensures { HaveWidths }
{}

/// A state that is raised to X leaves each value as it was, or raises it.
pub fn values_are_monotone()
    ensures { RaisesValues }
{}

/// A settled state gives settled values.
pub fn values_settle()
    ensures { SettlesValues }
{}

/// A constant expression is worth its bits: with a number in the place of each constant, whatever the design and its state.
pub fn values_agree_with_constants()
    ensures { AgreesWithConstants }
{}
