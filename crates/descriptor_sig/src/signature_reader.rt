ghost use Rattle.std.specs.Prelude.{◌≡◌, ◌<◌, ◌≤◌, ◌==◌, length, Ok, OnOk};
ghost use Rattle.std.specs.List.{position_or_len, prefix_len};
ghost use Rattle.java_types.specs.declared.production.Production.TheVariants.{AnyType, Element};
ghost use Rattle.java_types.specs.Fronts.{is_before_type as is_before_type_of};
ghost use Rattle.java_types.specs.Fronts.{ends_name as ends_name_of};
ghost use Rattle.descriptor_sig.specs.Standing.{Builds, Takes, Passes, NameStands};
ghost use Rattle.descriptor_sig.specs.Standing.{VariableStands, DimensionsStand, TypeStands};
ghost use Rattle.descriptor_sig.specs.Standing.{PartStands, PartsStand, ArgsStand, ArgStands};
ghost use Rattle.descriptor_sig.specs.Standing.{ends_types as ends_types_of};

use crate::error::SigErr;
use hdr_core::{List, Text};
use java_types::{JArg, JPart, JType, NESTING_LIMIT};
use sqlite_items::Boxed;
use std::alloc::Global;
use std::marker::Model;

/// What a branch answers that no signature meets.
pub const UNMET: SigErr = SigErr::BadText { at: 0 };

/// The bytes of a signature that are still to be read.
///
/// Its methods build what is known to stand next. What they give where nothing does is open.
#[derive(Drop)]
pub struct SignatureReader<'a> {
    rest: &'a [u8],
}

impl<'a> Model for SignatureReader<'a> {
    ghost use Rattle.std.specs.Prelude.{List, ℕ};

    ghost Value = { List ℕ };

    ghost view = { λ reader. reader.rest.now };
}

/// Whether no name holds the byte, / between identifiers apart.
fn ends_name(b: u8) -> bool
    ensures { result ≡ ends_name_of b }
{
    matches!(b, b'.' | b';' | b'[' | b'<' | b'>' | b':')
}

impl<'a> SignatureReader<'a> {
    pub fn of(text: &'a [u8]) -> SignatureReader<'a>
        ensures { result ≡ text.now }
    {
        SignatureReader { rest: text }
    }

    /// Takes the next byte.
    pub fn next(&mut self) -> Option<u8>
        ensures taken { Takes self.old result self.new }
        ensures shrinks { length self.new ≤ length self.old }
    {
        match self.rest.split_first() {
            Some((first, rest)) => {
                self.rest = rest;
                Some(*first)
            }
            None => None,
        }
    }

    /// Passes over the byte, if it is the next one.
    pub fn eats(&mut self, byte: u8) -> bool
        ensures { Passes byte self.old result self.new }
    {
        match self.rest.split_first() {
            Some((first, rest)) if *first == byte => {
                self.rest = rest;
                true
            }
            _ => false,
        }
    }

    /// How long the name at the front is.
    fn name_length(&self) -> usize
        ensures value { result ≡ position_or_len ends_name_of self.now }
        ensures bound { result ≤ length self.now }
    {
        self.rest.iter().take_while(|b| !ends_name(**b)).count()
    }

    pub fn name(&mut self) -> &'a [u8]
        ensures name { Builds NameStands self.old (Ok result.now) self.new }
        ensures shrinks { length self.new ≤ length self.old }
    {
        let (name, rest) = self.rest.split_at(self.name_length());
        self.rest = rest;
        name
    }

    /// A type variable, with its `;`.
    fn variable(&mut self, alloc: Global) -> Result<Text, SigErr>
        ensures built { Builds VariableStands self.old result self.new }
        ensures shrinks { length self.new ≤ length self.old }
    {
        let name = Text::of(alloc, self.name())?;
        self.next();
        Ok(name)
    }

    /// How many `[` are at the front.
    fn brackets(&self) -> usize
        ensures value { result ≡ prefix_len (λ b. b == 91) self.now }
        ensures bound { result ≤ length self.now }
    {
        self.rest.iter().take_while(|b| **b == b'[').count()
    }

    fn dimensions(&mut self) -> u32
        ensures count { Builds DimensionsStand self.old (Ok result) self.new }
        ensures shrinks { length self.new ≤ length self.old }
    {
        let count = self.brackets();
        let (_, rest) = self.rest.split_at(count);
        self.rest = rest;
        u32::try_from(count).unwrap_or(u32::MAX)
    }

    /// Whether no further type of a list stands next.
    pub fn ends_types(&self) -> bool
        ensures { result ≡ ends_types_of self.now }
    {
        matches!(self.rest.first(), None | Some(b')'))
    }

    /// Whether a type stands behind the `:` of a type parameter: a class or a type
    /// variable, unless it is the name of the next type parameter, or an array.
    pub fn is_before_type(&self) -> bool
        ensures { result ≡ is_before_type_of self.now }
    {
        match self.rest.first() {
            Some(b'[') => true,
            Some(b'L' | b'T') => self.rest.get(self.name_length()) != Some(&b':'),
            _ => false,
        }
    }

    /// Any type but `void`, inside so many type arguments.
    #[cycle(reading)]
    pub fn java_type(&mut self, alloc: Global, depth: u32) -> Result<JType, SigErr>
        ensures built { Builds (TypeStands AnyType depth) self.old result self.new }
        ensures shrinks { OnOk result (length self.new < length self.old) }
    {
        let dims = self.dimensions();
        let element = self.element(alloc, depth)?;
        if dims == 0 {
            return Ok(element);
        }
        Ok(JType::Array {
            element: Boxed::new(alloc, element)?,
            dims,
        })
    }

    #[cycle(reading)]
    fn element(&mut self, alloc: Global, depth: u32) -> Result<JType, SigErr>
        ensures built { Builds (TypeStands Element depth) self.old result self.new }
        ensures shrinks { OnOk result (length self.new < length self.old) }
    {
        let Some(first) = self.next() else {
            return Err(UNMET);
        };
        match first {
            b'L' => Ok(JType::Named(self.parts(alloc, depth)?)),
            b'T' => Ok(JType::Var(self.variable(alloc)?)),
            letter => Ok(JType::Prim(letter)),
        }
    }

    /// The parts of a class, with its `;`.
    #[cycle(reading)]
    fn parts(&mut self, alloc: Global, depth: u32) -> Result<List<JPart>, SigErr>
        ensures built { Builds (PartsStand depth) self.old result self.new }
        ensures shrinks { OnOk result (length self.new ≤ length self.old) }
    {
        let mut parts = Vec::new(alloc);
        loop {
            parts.push(self.part(alloc, depth)?)?;
            if !self.eats(b'.') {
                self.next();
                return Ok(List::of(parts));
            }
        }
    }

    #[cycle(reading)]
    fn part(&mut self, alloc: Global, depth: u32) -> Result<JPart, SigErr>
        ensures built { Builds (PartStands depth) self.old result self.new }
        ensures shrinks { OnOk result (length self.new ≤ length self.old) }
    {
        let name = Text::of(alloc, self.name())?;
        let args = self.arguments(alloc, depth)?;
        Ok(JPart { name, args })
    }

    #[cycle(reading)]
    fn arguments(&mut self, alloc: Global, depth: u32) -> Result<List<JArg>, SigErr>
        ensures built { Builds (ArgsStand depth) self.old result self.new }
        ensures shrinks { OnOk result (length self.new ≤ length self.old) }
    {
        if !self.eats(b'<') {
            return Ok(List::of(Vec::new(alloc)));
        }
        if depth >= NESTING_LIMIT {
            return Err(UNMET);
        }
        let mut args = Vec::new(alloc);
        while !self.eats(b'>') {
            args.push(self.argument(alloc, depth + 1)?)?;
        }
        Ok(List::of(args))
    }

    #[cycle(reading)]
    fn argument(&mut self, alloc: Global, depth: u32) -> Result<JArg, SigErr>
        ensures built { Builds (ArgStands depth) self.old result self.new }
        ensures shrinks { OnOk result (length self.new < length self.old) }
    {
        if self.eats(b'*') {
            return Ok(JArg::Any);
        }
        if self.eats(b'+') {
            return Ok(JArg::Extends(self.java_type(alloc, depth)?));
        }
        if self.eats(b'-') {
            return Ok(JArg::Super(self.java_type(alloc, depth)?));
        }
        Ok(JArg::Exact(self.java_type(alloc, depth)?))
    }
}
