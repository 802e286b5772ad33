//! The law of each production that stands by itself: what is read is what the grammar spells.
ghost use Rattle.java_grammar.specs.Expressions.{QName};
ghost use Rattle.java_grammar.specs.Annotations.{AnnSpells, ElemSpells};
ghost use Rattle.java_grammar.specs.Types.{TypeSpells, BareSpells, Dims};
ghost use Rattle.productions.specs.Leaves.{qualified_name, annotation, any_type, bare_type};
ghost use Rattle.productions.specs.Leaves.{dimensions, value};
ghost use Rattle.productions.specs.Lists.{typed, TypedLine};
ghost use Rattle.productions.specs.Laws.{Reads};

/// Qualified names (JLS 6.5), where no dot follows.
pub fn names_are_read()
    ensures { Reads qualified_name QName }
{}

/// Annotations (JLS 9.7), where neither a dot nor a group follows.
pub fn annotations_are_read()
    ensures { Reads annotation AnnSpells }
{}

/// Types (JLS 4.1 to 4.5, 10.1) with the annotations before them, where no type arguments, no
/// dot, no annotation, no bracket and no `-` follow.
pub fn types_are_read()
    ensures { Reads any_type TypeSpells }
{}

/// Types without annotations before them, where the same holds.
pub fn bare_types_are_read()
    ensures { Reads bare_type BareSpells }
{}

/// Dimensions (JLS 10.2), where neither an annotation nor a bracket follows.
pub fn dimensions_are_read()
    ensures { Reads dimensions Dims }
{}

/// Values of elements (JLS 9.7.1), where an end follows.
pub fn values_are_read()
    ensures { Reads value ElemSpells }
{}

/// Types before `...`, or before none (JLS 8.4.1).
pub fn types_before_dots_are_read()
    ensures { Reads typed TypedLine }
{}
