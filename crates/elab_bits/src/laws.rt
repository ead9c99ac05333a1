//! Laws of bits. They compute nothing.

ghost use Rattle.elab_bits.specs.Laws.{GoByIndex, KeepsMembers};

/// A select stands for the bits whose indices it names.
pub fn selects_go_by_index()
    ensures { GoByIndex }
{}

/// Putting bits in order, each once, loses none and adds none.
pub fn order_keeps_members()
    ensures { KeepsMembers }
{}
