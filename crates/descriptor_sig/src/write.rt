ghost use Rattle.std.specs.Prelude.{◌≡◌, ℕ, ◌∷◌, [], ◌++◌, IfOk, OnOk, codes, map, replicate};
ghost use Rattle.std.specs.List.{concat, flat_map};
ghost use Rattle.java_types.specs.Types.{type_text, part_text, arg_text, parts_text, args_text};
ghost use Rattle.java_types.specs.Types.{bound_text, param_text, params_text, signature_text};
ghost use Rattle.java_types.specs.declared.production.SigPlace.{SigPlace};
ghost use Rattle.java_types.specs.Signature.{IsSignature, SignatureSpells};
ghost use Rattle.java_types.specs.Descriptor.{IsDescriptor, DescriptorSpells};

use hdr_core::{Memory, Text};
use java_types::{JArg, JParam, JPart, JSig, JType};
use std::alloc::Global;

/// The text of a descriptor or a signature (JVMS 4.3,
/// 4.7.9.1). Every value has one, a right one or not.
pub fn write_signature(alloc: Global, sig: &JSig) -> Result<Text, Memory>
    ensures text { IfOk result (λ text. text ≡ signature_text sig.now) }
    ensures signature { (place : SigPlace)
        → IsSignature place sig.now
        → IfOk result (λ text. SignatureSpells place sig.now text) }
    ensures descriptor { IsDescriptor sig.now
        → IfOk result (λ text. DescriptorSpells sig.now text) }
{
    let mut out = Vec::new(alloc);
    write_sig(&mut out, sig)?;
    Ok(Text::from(out))
}

fn write_sig(out: &mut Vec<u8>, sig: &JSig) -> Result<(), Memory>
    ensures { OnOk result (out.new.items ≡ out.old.items ++ signature_text sig.now) }
{
    match sig {
        JSig::OfClass {
            params,
            super_type,
            interfaces,
        } => {
            write_params(out, params.items())?;
            write_type(out, super_type)?;
            write_types(out, interfaces.items())
        }
        JSig::OfMethod {
            params,
            formals,
            ret,
            throws,
        } => {
            write_params(out, params.items())?;
            write_formals(out, formals.items())?;
            write_type(out, ret)?;
            write_each_after(out, b'^', throws.items())
        }
        JSig::OfField(ty) => write_type(out, ty),
    }
}

fn put(out: &mut Vec<u8>, byte: u8) -> Result<(), Memory>
    ensures { OnOk result (out.new.items ≡ out.old.items ++ (byte ∷ [])) }
{
    out.push(byte)?;
    Ok(())
}

/// Writes type parameters, between `<` and `>` where there are some.
fn write_params(out: &mut Vec<u8>, params: &[JParam]) -> Result<(), Memory>
    ensures { OnOk result (out.new.items ≡ out.old.items ++ params_text params.now) }
{
    if params.is_empty() {
        return Ok(());
    }
    put(out, b'<')?;
    for param in params {
        write_param(out, param)?;
    }
    put(out, b'>')
}

/// Writes a type parameter. The `:` of the class bound stands there without one too.
fn write_param(out: &mut Vec<u8>, param: &JParam) -> Result<(), Memory>
    ensures { OnOk result (out.new.items ≡ out.old.items ++ param_text param.now) }
{
    out.extend_from_slice(param.name.bytes())?;
    put(out, b':')?;
    if let Some(bound) = &param.class_bound {
        write_type(out, bound)?;
    }
    write_each_after(out, b':', param.interface_bounds.items())
}

fn write_types(out: &mut Vec<u8>, types: &[JType]) -> Result<(), Memory>
    ensures { OnOk result (out.new.items ≡ out.old.items ++ flat_map type_text types.now) }
{
    for ty in types {
        write_type(out, ty)?;
    }
    Ok(())
}

/// Writes the types of a method's parameters, with their parentheses.
fn write_formals(out: &mut Vec<u8>, formals: &[JType]) -> Result<(), Memory>
    ensures { OnOk result (out.new.items
        ≡ out.old.items ++ (codes "(" ++ (flat_map type_text formals.now ++ codes ")"))) }
{
    put(out, b'(')?;
    write_types(out, formals)?;
    put(out, b')')
}

/// Writes each type behind a mark of its own.
fn write_each_after(out: &mut Vec<u8>, mark: u8, types: &[JType]) -> Result<(), Memory>
    ensures { OnOk result (out.new.items
        ≡ out.old.items ++ flat_map (λ ty. mark ∷ type_text ty) types.now) }
{
    for ty in types {
        put(out, mark)?;
        write_type(out, ty)?;
    }
    Ok(())
}

/// Writes a type variable, with its `;`.
fn write_variable(out: &mut Vec<u8>, name: &Text) -> Result<(), Memory>
    ensures { OnOk result (out.new.items
        ≡ out.old.items ++ (codes "T" ++ (name.now ++ codes ";"))) }
{
    put(out, b'T')?;
    out.extend_from_slice(name.bytes())?;
    put(out, b';')
}

/// Writes the dimensions of an array.
fn write_brackets(out: &mut Vec<u8>, dims: u32) -> Result<(), Memory>
    ensures { OnOk result (out.new.items ≡ out.old.items ++ replicate dims 91) }
{
    out.resize(out.len() + dims as usize, b'[')?;
    Ok(())
}

#[cycle(writing)]
fn write_type(out: &mut Vec<u8>, ty: &JType) -> Result<(), Memory>
    ensures { OnOk result (out.new.items ≡ out.old.items ++ type_text ty.now) }
{
    match ty {
        JType::Void => put(out, b'V'),
        JType::Prim(letter) => put(out, *letter),
        JType::Named(parts) => {
            put(out, b'L')?;
            write_parts(out, parts.items())?;
            put(out, b';')
        }
        JType::Var(name) => write_variable(out, name),
        JType::Array { element, dims } => {
            write_brackets(out, *dims)?;
            write_type(out, element.get())
        }
    }
}

/// Writes the parts of a class, with `.` between.
#[cycle(writing)]
fn write_parts(out: &mut Vec<u8>, parts: &[JPart]) -> Result<(), Memory>
    ensures { OnOk result (out.new.items ≡ out.old.items ++ parts_text (map part_text parts.now)) }
{
    let Some((first, later)) = parts.split_first() else {
        return Ok(());
    };
    write_part(out, first)?;
    for part in later {
        put(out, b'.')?;
        write_part(out, part)?;
    }
    Ok(())
}

#[cycle(writing)]
fn write_part(out: &mut Vec<u8>, part: &JPart) -> Result<(), Memory>
    ensures { OnOk result (out.new.items ≡ out.old.items ++ part_text part.now) }
{
    out.extend_from_slice(part.name.bytes())?;
    write_args(out, part.args.items())
}

/// Writes type arguments, between `<` and `>` where there are some.
#[cycle(writing)]
fn write_args(out: &mut Vec<u8>, args: &[JArg]) -> Result<(), Memory>
    ensures { OnOk result (out.new.items ≡ out.old.items ++ args_text (map arg_text args.now)) }
{
    if args.is_empty() {
        return Ok(());
    }
    put(out, b'<')?;
    for arg in args {
        write_arg(out, arg)?;
    }
    put(out, b'>')
}

#[cycle(writing)]
fn write_arg(out: &mut Vec<u8>, arg: &JArg) -> Result<(), Memory>
    ensures { OnOk result (out.new.items ≡ out.old.items ++ arg_text arg.now) }
{
    match arg {
        JArg::Exact(ty) => write_type(out, ty),
        JArg::Extends(ty) => {
            put(out, b'+')?;
            write_type(out, ty)
        }
        JArg::Super(ty) => {
            put(out, b'-')?;
            write_type(out, ty)
        }
        JArg::Any => put(out, b'*'),
    }
}
