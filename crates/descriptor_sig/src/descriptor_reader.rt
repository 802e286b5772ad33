ghost use Rattle.std.specs.Prelude.{◌≡◌, length, IfOk};
ghost use Rattle.java_types.specs.Descriptor.{DescriptorSpells, class_named};
ghost use Rattle.descriptor_sig.specs.Parts.{Parsed, ParsedWhole, DimensionsRead, NameSpells};
ghost use Rattle.descriptor_sig.specs.Parts.{ElementSpells, FieldSpells, ReturnSpells};
ghost use Rattle.descriptor_sig.specs.Parts.{FormalsSpell, MethodSpells, part_behind};

use crate::stop::Stop;
use hdr_core::{List, Memory, Text};
use java_types::{JPart, JSig, JType, MOST_DIMENSIONS, is_primitive};
use sqlite_items::Boxed;
use std::alloc::Global;

/// What is left to read of a descriptor (JVMS 4.3).
#[derive(Drop)]
pub struct DescriptorReader<'a> {
    rest: &'a [u8],
}

impl<'a> DescriptorReader<'a> {
    pub fn of(text: &'a [u8]) -> DescriptorReader<'a>
        ensures { result.rest.now ≡ text.now }
    {
        DescriptorReader { rest: text }
    }

    /// How many bytes are left.
    pub fn left(&self) -> usize
        ensures { result ≡ length self.now.rest.now }
    {
        self.rest.len()
    }

    /// A descriptor, and nothing behind it.
    pub fn whole(&mut self, alloc: Global) -> Result<JSig, Stop>
        ensures { ParsedWhole result self.old.rest.now self.new.rest.now }
    {
        let sig = self.descriptor(alloc)?;
        if !self.rest.is_empty() {
            return Err(Stop::Stuck);
        }
        Ok(sig)
    }

    fn descriptor(&mut self, alloc: Global) -> Result<JSig, Stop>
        ensures { Parsed DescriptorSpells result self.old.rest.now self.new.rest.now }
    {
        if let [b'(', rest @ ..] = self.rest {
            self.rest = rest;
            return self.method(alloc);
        }
        Ok(JSig::OfField(self.field_type(alloc)?))
    }

    /// What follows the `(` of a method's descriptor.
    fn method(&mut self, alloc: Global) -> Result<JSig, Stop>
        ensures { Parsed MethodSpells result self.old.rest.now self.new.rest.now }
    {
        let formals = self.formals(alloc)?;
        let ret = self.return_type(alloc)?;
        Ok(JSig::OfMethod {
            params: List::of(Vec::new(alloc)),
            formals,
            ret,
            throws: List::of(Vec::new(alloc)),
        })
    }

    /// The types of the parameters, and the `)` behind them.
    fn formals(&mut self, alloc: Global) -> Result<List<JType>, Stop>
        ensures { Parsed FormalsSpell result self.old.rest.now self.new.rest.now }
    {
        let mut formals = Vec::new(alloc);
        loop {
            if let [b')', rest @ ..] = self.rest {
                self.rest = rest;
                return Ok(List::of(formals));
            }
            formals.push(self.field_type(alloc)?)?;
        }
    }

    fn return_type(&mut self, alloc: Global) -> Result<JType, Stop>
        ensures { Parsed ReturnSpells result self.old.rest.now self.new.rest.now }
    {
        if let [b'V', rest @ ..] = self.rest {
            self.rest = rest;
            return Ok(JType::Void);
        }
        self.field_type(alloc)
    }

    fn field_type(&mut self, alloc: Global) -> Result<JType, Stop>
        ensures { Parsed FieldSpells result self.old.rest.now self.new.rest.now }
    {
        let dims = self.dimensions()?;
        let element = self.element(alloc)?;
        if dims == 0 {
            return Ok(element);
        }
        Ok(JType::Array {
            element: Boxed::new(alloc, element)?,
            dims,
        })
    }

    /// As many `[` as there are.
    fn dimensions(&mut self) -> Result<u32, Stop>
        ensures { DimensionsRead result self.old.rest.now self.new.rest.now }
    {
        let mut dims = 0;
        while let [b'[', rest @ ..] = self.rest {
            if dims == MOST_DIMENSIONS {
                return Err(Stop::Stuck);
            }
            dims += 1;
            self.rest = rest;
        }
        Ok(dims)
    }

    /// A type that is no array.
    fn element(&mut self, alloc: Global) -> Result<JType, Stop>
        ensures { Parsed ElementSpells result self.old.rest.now self.new.rest.now }
    {
        match self.rest {
            [b'L', rest @ ..] => {
                self.rest = rest;
                let name = self.class_name(alloc)?;
                Ok(class_type(alloc, name)?)
            }
            [letter, rest @ ..] if is_primitive(*letter) => {
                self.rest = rest;
                Ok(JType::Prim(*letter))
            }
            _ => Err(Stop::Stuck),
        }
    }

    /// The name of a class, and the `;` behind it.
    fn class_name(&mut self, alloc: Global) -> Result<Text, Stop>
        ensures { Parsed NameSpells result self.old.rest.now self.new.rest.now }
    {
        let text = self.rest;
        let mut in_part = false;
        while let [b, rest @ ..] = self.rest {
            if in_part && *b == b';' {
                let name = Text::of(alloc, &text[..text.len() - self.rest.len()])?;
                self.rest = rest;
                return Ok(name);
            }
            let Some(goes_on) = part_after(in_part, *b) else {
                return Err(Stop::Stuck);
            };
            in_part = goes_on;
            self.rest = rest;
        }
        Err(Stop::Stuck)
    }
}

/// Whether a part of a class's name has begun behind the byte,
/// from the same in front of it. None where the byte can't stand.
fn part_after(in_part: bool, b: u8) -> Option<bool>
    ensures { result ≡ part_behind in_part b }
{
    match b {
        b'/' if in_part => Some(false),
        b'.' | b';' | b'[' | b'/' => None,
        _ => Some(true),
    }
}

/// The class of this name, without type arguments.
fn class_type(alloc: Global, name: Text) -> Result<JType, Memory>
    ensures { IfOk result (λ ty. ty ≡ class_named name) }
{
    let mut parts = Vec::new(alloc);
    parts.push(JPart {
        name,
        args: List::of(Vec::new(alloc)),
    })?;
    Ok(JType::Named(List::of(parts)))
}
