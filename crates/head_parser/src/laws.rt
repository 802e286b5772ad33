//! Each production of heads reads what the grammar spells: no more, no less, and of a text no
//! other item.
ghost use Rattle.java_grammar.specs.Types.{Bounds, TypeParams};
ghost use Rattle.java_grammar.specs.Members.{Throws, Formals, Components, MethodSpells};
ghost use Rattle.java_grammar.specs.Members.{ConstructorSpells, CompactSpells};
ghost use Rattle.java_grammar.specs.Modifiers.{ModifiersSpell};
ghost use Rattle.std.specs.Prelude.{ℕ, List};
ghost use Rattle.productions.specs.Lists.{in_parentheses};
ghost use Rattle.productions.specs.Laws.{Reads};
ghost use Rattle.head_parser.specs.Types.{bounds, params, throws};
ghost use Rattle.head_parser.specs.Units.{package_line, PackageLine, import_line, ImportLine};
ghost use Rattle.head_parser.specs.Modifiers.{modifiers};
ghost use Rattle.head_parser.specs.Formals.{component, formals};
ghost use Rattle.head_parser.specs.Methods.{method_line, constructor_line, compact_line};
ghost use Rattle.head_parser.specs.Methods.{block_line};
ghost use Rattle.java_grammar.specs.Declarations.{InitialiserBlock};
ghost use Rattle.head_parser.specs.Heads.{head_line, HeadLine};

/// The bounds of a type parameter (JLS 4.4).
pub fn bounds_are_read()
    ensures { Reads bounds Bounds }
{}

/// Type parameters (JLS 8.1.2, 8.4.4).
pub fn type_parameters_are_read()
    ensures { Reads params TypeParams }
{}

/// What is thrown (JLS 8.4.6).
pub fn types_thrown_are_read()
    ensures { Reads throws Throws }
{}

/// Declarations of packages (JLS 7.4).
pub fn packages_are_read()
    ensures { Reads package_line PackageLine }
{}

/// Imports (JLS 7.5).
pub fn imports_are_read()
    ensures { Reads import_line ImportLine }
{}

/// Modifiers (JLS 8.1.1, 8.3.1, 8.4.3, 8.8.3, 9.1.1, 9.4), where a token follows that is none.
pub fn modifiers_are_read()
    ensures { Reads modifiers ModifiersSpell }
{}

/// Formal parameters, without the receiver (JLS 8.4.1).
pub fn formals_are_read()
    ensures { Reads formals Formals }
{}

/// Components of records (JLS 8.10.1).
pub fn components_are_read()
    ensures { Reads (in_parentheses component) Components }
{}

/// Methods (JLS 8.4, 9.4, 9.6.1).
pub fn methods_are_read()
    ensures { Reads method_line MethodSpells }
{}

/// Constructors of a class of any name (JLS 8.8).
pub fn constructors_are_read()
    ensures { (name : List ℕ) → Reads (constructor_line name) (ConstructorSpells name) }
{}

/// Compact constructors of a record of any name (JLS 8.10.4.2).
pub fn compact_constructors_are_read()
    ensures { (name : List ℕ) → Reads (compact_line name) (CompactSpells name) }
{}

/// Heads of declarations of classes and interfaces (JLS 8.1, 8.9, 8.10, 9.1, 9.6).
pub fn heads_are_read()
    ensures { Reads head_line HeadLine }
{}

/// Initialisers (JLS 8.6, 8.7).
pub fn initialisers_are_read()
    ensures { Reads block_line (λ none. InitialiserBlock) }
{}
