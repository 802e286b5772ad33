//! Laws of the readers: what is read is what is spelled.
ghost use Rattle.type_expr_parser.specs.Laws.{ExpressionsAreRead, AnnotationsAreRead};
ghost use Rattle.type_expr_parser.specs.Laws.{TypesAreRead, BareTypesAreRead};
ghost use Rattle.type_expr_parser.specs.Laws.{DimensionsAreRead, ValuesAreRead};

/// Expressions are read as they are spelled (JLS 15.29, 15.8.2), where no operator, operand,
/// bracket, dot or `?` goes on with them.
pub fn expressions_are_read()
    ensures { ExpressionsAreRead }
{}

/// Annotations are read as they are spelled (JLS 9.7), where no further word and no group follows.
pub fn annotations_are_read()
    ensures { AnnotationsAreRead }
{}

/// Types are read as they are spelled (JLS 4.1 to 4.5, 9.7.4, 10.1), where no type arguments, no
/// further part and no dimension follows.
pub fn types_are_read()
    ensures { TypesAreRead }
{}

/// Types without annotations before them are read as they are spelled, where the same holds.
pub fn bare_types_are_read()
    ensures { BareTypesAreRead }
{}

/// Dimensions are read as they are spelled (JLS 10.2), where no further one follows.
pub fn dimensions_are_read()
    ensures { DimensionsAreRead }
{}

/// Values of elements are read as they are spelled (JLS 9.7.1), where nothing goes on with an
/// expression.
pub fn values_are_read()
    ensures { ValuesAreRead }
{}
