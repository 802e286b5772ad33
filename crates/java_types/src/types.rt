ghost use Rattle.std.specs.Prelude.{◌≡◌, IfOk};

use hdr_core::{List, Memory, Text, TryCopy, copy_three};
use sqlite_items::Boxed;
use std::alloc::Global;

/// A type as descriptors and signatures write it (JVMS 4.3, 4.7.9.1), or `void`.
#[cycle(java_type)]
#[derive(Drop)]
pub enum JType {
    Void,
    /// The letter of a primitive type in descriptors.
    Prim(u8),
    /// A class, with the classes around it that have type arguments.
    Named(List<JPart>),
    /// A type variable.
    Var(Text),
    Array {
        /// No array.
        element: Boxed<JType>,
        /// At least 1.
        dims: u32,
    },
}

/// A class with its type arguments: the first part of a type has
/// the binary name of its class, each later one a simple name.
#[cycle(java_type)]
#[derive(Drop)]
pub struct JPart {
    pub name: Text,
    pub args: List<JArg>,
}

/// A type argument.
#[cycle(java_type)]
#[derive(Drop)]
pub enum JArg {
    Exact(JType),
    /// `? extends` a type.
    Extends(JType),
    /// `? super` a type.
    Super(JType),
    /// `?`
    Any,
}

/// A type parameter (JVMS 4.7.9.1).
#[derive(Drop)]
pub struct JParam {
    pub name: Text,
    pub class_bound: Option<JType>,
    pub interface_bounds: List<JType>,
}

/// What a descriptor or a signature says (JVMS 4.3, 4.7.9.1).
#[derive(Drop)]
pub enum JSig {
    OfClass {
        params: List<JParam>,
        super_type: JType,
        interfaces: List<JType>,
    },
    OfMethod {
        params: List<JParam>,
        formals: List<JType>,
        ret: JType,
        throws: List<JType>,
    },
    OfField(JType),
}

impl JType {
    #[cycle(copy_type)]
    pub fn copy(&self, alloc: Global) -> Result<JType, Memory>
        ensures { IfOk result (λ copy. copy ≡ self.now) }
    {
        match self {
            JType::Void => Ok(JType::Void),
            JType::Prim(letter) => Ok(JType::Prim(*letter)),
            JType::Named(parts) => Ok(JType::Named(copy_parts(alloc, parts.items())?)),
            JType::Var(name) => Ok(JType::Var(name.copy(alloc)?)),
            JType::Array { element, dims } => Ok(JType::Array {
                element: Boxed::new(alloc, element.get().copy(alloc)?)?,
                dims: *dims,
            }),
        }
    }
}

impl JPart {
    #[cycle(copy_type)]
    pub fn copy(&self, alloc: Global) -> Result<JPart, Memory>
        ensures { IfOk result (λ copy. copy ≡ self.now) }
    {
        let args = self.args.items();
        let mut copies = Vec::new(alloc);
        for arg in args {
            copies.push(arg.copy(alloc)?)?;
        }
        Ok(JPart {
            name: self.name.copy(alloc)?,
            args: List::of(copies),
        })
    }
}

impl JArg {
    #[cycle(copy_type)]
    pub fn copy(&self, alloc: Global) -> Result<JArg, Memory>
        ensures { IfOk result (λ copy. copy ≡ self.now) }
    {
        match self {
            JArg::Exact(ty) => Ok(JArg::Exact(ty.copy(alloc)?)),
            JArg::Extends(ty) => Ok(JArg::Extends(ty.copy(alloc)?)),
            JArg::Super(ty) => Ok(JArg::Super(ty.copy(alloc)?)),
            JArg::Any => Ok(JArg::Any),
        }
    }
}

#[cycle(copy_type)]
fn copy_parts(alloc: Global, parts: &[JPart]) -> Result<List<JPart>, Memory>
    ensures { IfOk result (λ copy. copy ≡ parts.now) }
{
    let mut copy = Vec::new(alloc);
    for part in parts {
        copy.push(part.copy(alloc)?)?;
    }
    Ok(List::of(copy))
}

impl TryCopy for JType {
    fn try_copy(&self, alloc: Global) -> Result<JType, Memory> {
        self.copy(alloc)
    }
}

impl JParam {
    pub fn copy(&self, alloc: Global) -> Result<JParam, Memory>
        ensures { IfOk result (λ copy. copy ≡ self.now) }
    {
        let (name, class_bound, interface_bounds) = copy_three(
            alloc,
            &self.name,
            &self.class_bound,
            &self.interface_bounds,
        )?;
        Ok(JParam {
            name,
            class_bound,
            interface_bounds,
        })
    }
}

impl TryCopy for JParam {
    fn try_copy(&self, alloc: Global) -> Result<JParam, Memory> {
        self.copy(alloc)
    }
}

impl JSig {
    pub fn copy(&self, alloc: Global) -> Result<JSig, Memory>
        ensures { IfOk result (λ copy. copy ≡ self.now) }
    {
        match self {
            JSig::OfClass {
                params,
                super_type,
                interfaces,
            } => {
                let (params, super_type, interfaces) = copy_three(
                    alloc, params, super_type, interfaces,
                )?;
                Ok(JSig::OfClass {
                    params,
                    super_type,
                    interfaces,
                })
            }
            JSig::OfMethod {
                params,
                formals,
                ret,
                throws,
            } => {
                let ret = ret.copy(alloc)?;
                let (params, formals, throws) = copy_three(alloc, params, formals, throws)?;
                Ok(JSig::OfMethod {
                    params,
                    formals,
                    ret,
                    throws,
                })
            }
            JSig::OfField(ty) => Ok(JSig::OfField(ty.copy(alloc)?)),
        }
    }
}
