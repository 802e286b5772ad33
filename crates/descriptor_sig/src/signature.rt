ghost use Rattle.std.specs.Prelude.{◌≡◌, ◌<◌, ◌≤◌, ◌^◌, ℕ, length, IfOk, OnOk, Ok, Err, Some};
ghost use Rattle.java_types.specs.declared.types.JSig.{JSig};
ghost use Rattle.java_types.specs.declared.production.Production.TheVariants.{AnyResult};
ghost use Rattle.java_types.specs.declared.production.SigPlace.TheVariants.{ClassPlace};
ghost use Rattle.java_types.specs.declared.production.SigPlace.TheVariants.{MethodPlace};
ghost use Rattle.java_types.specs.declared.production.SigPlace.TheVariants.{FieldPlace};
ghost use Rattle.java_types.specs.Signature.{SignatureSpells};
ghost use Rattle.signature_scan.specs.Scanned.{IsFine, IsTooDeep};
ghost use Rattle.java_types.specs.Spelling.{IsBadText};
ghost use Rattle.java_types.specs.Trees.{signature_of};
ghost use Rattle.descriptor_sig.specs.Built.{IsBuilt};
ghost use Rattle.descriptor_sig.specs.Standing.{Builds, TypeStands, TypesStand, MarkedStand};
ghost use Rattle.descriptor_sig.specs.Standing.{BoundStands, ParamStands, ParamsStand};
ghost use Rattle.descriptor_sig.specs.Standing.{FormalsStand, SigStands};

use crate::error::SigErr;
use crate::signature_reader::{SignatureReader, UNMET};
use hdr_core::{List, Text};
use java_types::{JParam, JSig, JType};
use signature_scan::{SigPlace, Verdict, scan};
use std::alloc::Global;

impl<'a> SignatureReader<'a> {
    /// Types, up to the end or a `)`.
    fn types(&mut self, alloc: Global) -> Result<List<JType>, SigErr>
        ensures { Builds TypesStand self.old result self.new }
    {
        let mut types = Vec::new(alloc);
        while !self.ends_types() {
            types.push(self.java_type(alloc, 0)?)?;
        }
        Ok(List::of(types))
    }

    /// Types, each behind the mark.
    fn types_behind(&mut self, alloc: Global, mark: u8) -> Result<List<JType>, SigErr>
        ensures built { Builds (MarkedStand mark) self.old result self.new }
        ensures shrinks { OnOk result (length self.new ≤ length self.old) }
    {
        let mut types = Vec::new(alloc);
        while self.eats(mark) {
            types.push(self.java_type(alloc, 0)?)?;
        }
        Ok(List::of(types))
    }

    /// The class bound behind the `:` of a type parameter, where there is one.
    fn class_bound(&mut self, alloc: Global) -> Result<Option<JType>, SigErr>
        ensures built { Builds BoundStands self.old result self.new }
        ensures shrinks { OnOk result (length self.new ≤ length self.old) }
    {
        if !self.is_before_type() {
            return Ok(None);
        }
        Ok(Some(self.java_type(alloc, 0)?))
    }

    fn parameter(&mut self, alloc: Global) -> Result<JParam, SigErr>
        ensures built { Builds ParamStands self.old result self.new }
        ensures shrinks { OnOk result (length self.new < length self.old) }
    {
        let name = Text::of(alloc, self.name())?;
        if !self.eats(b':') {
            return Err(UNMET);
        }
        let class_bound = self.class_bound(alloc)?;
        let interface_bounds = self.types_behind(alloc, b':')?;
        Ok(JParam {
            name,
            class_bound,
            interface_bounds,
        })
    }

    fn parameters(&mut self, alloc: Global) -> Result<List<JParam>, SigErr>
        ensures { Builds ParamsStand self.old result self.new }
    {
        if !self.eats(b'<') {
            return Ok(List::of(Vec::new(alloc)));
        }
        let mut params = Vec::new(alloc);
        while !self.eats(b'>') {
            params.push(self.parameter(alloc)?)?;
        }
        Ok(List::of(params))
    }

    /// The types of a method's parameters, with their parentheses.
    fn formals(&mut self, alloc: Global) -> Result<List<JType>, SigErr>
        ensures { Builds FormalsStand self.old result self.new }
    {
        self.next();
        let formals = self.types(alloc)?;
        self.next();
        Ok(formals)
    }

    /// Any type, or `void`.
    fn result_type(&mut self, alloc: Global) -> Result<JType, SigErr>
        ensures { Builds (TypeStands AnyResult 0) self.old result self.new }
    {
        if self.eats(b'V') {
            return Ok(JType::Void);
        }
        self.java_type(alloc, 0)
    }

    pub fn class_signature(&mut self, alloc: Global) -> Result<JSig, SigErr>
        ensures { Builds (SigStands ClassPlace) self.old result self.new }
    {
        let params = self.parameters(alloc)?;
        let super_type = self.java_type(alloc, 0)?;
        let interfaces = self.types(alloc)?;
        Ok(JSig::OfClass {
            params,
            super_type,
            interfaces,
        })
    }

    pub fn method_signature(&mut self, alloc: Global) -> Result<JSig, SigErr>
        ensures { Builds (SigStands MethodPlace) self.old result self.new }
    {
        let params = self.parameters(alloc)?;
        let formals = self.formals(alloc)?;
        let ret = self.result_type(alloc)?;
        let throws = self.types_behind(alloc, b'^')?;
        Ok(JSig::OfMethod {
            params,
            formals,
            ret,
            throws,
        })
    }

    pub fn field_signature(&mut self, alloc: Global) -> Result<JSig, SigErr>
        ensures { Builds (SigStands FieldPlace) self.old result self.new }
    {
        Ok(JSig::OfField(self.java_type(alloc, 0)?))
    }
}

/// Builds the signature that the text is known to
/// spell, with type arguments nested at most 64 deep.
fn build(alloc: Global, text: &[u8], place: SigPlace) -> Result<JSig, SigErr>
    ensures { IsBuilt place text.now result }
{
    let mut reader = SignatureReader::of(text);
    match place {
        SigPlace::ClassPlace => reader.class_signature(alloc),
        SigPlace::MethodPlace => reader.method_signature(alloc),
        SigPlace::FieldPlace => reader.field_signature(alloc),
    }
}

/// Reads the signature of a class, a method or a field (JVMS
/// 4.7.9.1), with type arguments nested at most 64 deep.
///
/// `BadText` comes just where the text spells no signature at this
/// place, `TooDeep` just where it spells one that is nested deeper.
pub fn read_signature(alloc: Global, text: &Text, place: SigPlace) -> Result<JSig, SigErr>
    requires { length text.now < 2 ^ 32 }
    ensures spelled { IfOk result (λ sig. IsFine place text.now sig) }
    // No other signature has this text.
    ensures only { IfOk result
        (λ sig. (other : JSig) → SignatureSpells place other text.now → other ≡ sig) }
    ensures by_text { IfOk result (λ sig. signature_of place text.now ≡ Some sig) }
    ensures bad { (at : ℕ)
        → result ≡ Err (SigErr.BadText at)
        → IsBadText (SignatureSpells place) text.now at }
    ensures deep { (at : ℕ)
        → result ≡ Err (SigErr.TooDeep at)
        → (sig : JSig) × IsTooDeep place text.now at sig }
{
    let bytes = text.bytes();
    match scan(bytes, place) {
        Verdict::Fine => build(alloc, bytes, place),
        Verdict::BadText { at } => Err(SigErr::BadText { at }),
        Verdict::TooDeep { at } => Err(SigErr::TooDeep { at }),
    }
}
