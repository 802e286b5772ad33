//! Trees of Java declarations (JLS 4, 6 to 9), as a header compiler reads them: no bodies, of
//! initialisers only what may be a constant.
//!
//! Names and texts are kept as modified UTF-8 (JVMS 4.4.7). A `line` counts from 1; that of a
//! type, field, method, constructor, enum constant, formal or component is the line of the word
//! that names it.
#![tactic(auto)]

mod annotation;
mod declaration;
mod expression;
mod member;
mod modifiers;
mod threads;
mod types;
mod unit;

pub use annotation::{AnnTree, ElemArg, ElemTree};
pub use declaration::{DeclKind, EnumConst, Member, TypeDecl, TypeParam};
pub use expression::{BinOp, Expr, Link, Lit, UnOp};
pub use member::{FieldDecl, Init, MethodDecl, MethodKind, Param};
pub use modifiers::{
    ABSTRACT, ACCESS_FLAGS, FINAL, MODIFIER_FLAGS, Modifiers, NATIVE, PRIVATE, PROTECTED, PUBLIC,
    STATIC, SYNCHRONIZED, TRANSIENT, VOLATILE,
};
pub use types::{ArgTree, NamePart, Primitive, TypeTree};
pub use unit::{Import, Unit};
