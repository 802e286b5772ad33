//! Attributes (JVMS 4.7).
ghost use Rattle.std.specs.Prelude.{◌≡◌, OnOk};
ghost use Rattle.class_desc.specs.Layout.{attribute_items, component_items, inner_class_items};
ghost use Rattle.class_desc.specs.Layout.{parameter_items, counted, for_parameters};
ghost use Rattle.class_writer.specs.Bodies.{body_items};
ghost use Rattle.class_writer.specs.Writing.{Puts};

use crate::item::Item;
use crate::items::Items;
use crate::need::{Place, need_of};
use class_desc::{Attr, ComponentDesc, InnerEntry, ParamEntry};
use hdr_core::Memory;

impl<'a> Items<'a> {
    #[cycle(attributes)]
    fn attribute(&mut self, attr: &'a Attr) -> Result<(), Memory>
        ensures { OnOk result (Puts (attribute_items attr.now) self.old self.new) }
    {
        let begun = self.begin_attribute(attr.name())?;
        self.body(attr)?;
        self.end_attribute(begun);
        Ok(())
    }

    /// What stands behind the length.
    #[cycle(attributes)]
    fn body(&mut self, attr: &'a Attr) -> Result<(), Memory>
        ensures { OnOk result (Puts (body_items attr.now) self.old self.new) }
    {
        match attr {
            Attr::ConstantValue(value) => {
                self.push(Item::EntryNumber(need_of(value, Place::Field)))
            }
            Attr::Exceptions(names) => self.classes(names.items()),
            Attr::Signature(text) => self.text(text),
            Attr::Deprecated => Ok(()),
            Attr::Synthetic => Ok(()),
            Attr::InnerClasses(entries) => self.inner_classes(entries.items()),
            Attr::Components(components) => self.components(components.items()),
            Attr::PermittedSubclasses(names) => self.classes(names.items()),
            Attr::AnnotationDefault(value) => self.value(value),
            Attr::MethodParameters(entries) => self.parameters(entries.items()),
            Attr::VisibleAnns(annotations) => self.annotations(annotations.items()),
            Attr::InvisibleAnns(annotations) => self.annotations(annotations.items()),
            Attr::VisibleParamAnns(lists) => self.annotations_of_parameters(lists.items()),
            Attr::InvisibleParamAnns(lists) => self.annotations_of_parameters(lists.items()),
        }
    }

    #[cycle(attributes)]
    fn components(&mut self, components: &'a [ComponentDesc]) -> Result<(), Memory>
        ensures { OnOk result (Puts (counted component_items components.now) self.old self.new) }
    {
        self.push(Item::Count(components.len()))?;
        for component in components {
            self.component(component)?;
        }
        Ok(())
    }

    #[cycle(attributes)]
    fn component(&mut self, component: &'a ComponentDesc) -> Result<(), Memory>
        ensures { OnOk result (Puts (component_items component.now) self.old self.new) }
    {
        self.text(&component.name)?;
        self.text(&component.descriptor)?;
        self.attributes(component.attrs.items())
    }

    #[cycle(attributes)]
    pub fn attributes(&mut self, attrs: &'a [Attr]) -> Result<(), Memory>
        ensures { OnOk result (Puts (counted attribute_items attrs.now) self.old self.new) }
    {
        self.push(Item::Count(attrs.len()))?;
        for attr in attrs {
            self.attribute(attr)?;
        }
        Ok(())
    }

    fn inner_classes(&mut self, entries: &'a [InnerEntry]) -> Result<(), Memory>
        ensures { OnOk result (Puts (counted inner_class_items entries.now) self.old self.new) }
    {
        self.push(Item::Count(entries.len()))?;
        for entry in entries {
            self.inner_class(entry)?;
        }
        Ok(())
    }

    fn inner_class(&mut self, entry: &'a InnerEntry) -> Result<(), Memory>
        ensures { OnOk result (Puts (inner_class_items entry.now) self.old self.new) }
    {
        self.class(&entry.inner)?;
        self.class_or_none(&entry.outer)?;
        self.text_or_none(&entry.name)?;
        self.flags(entry.flags)
    }

    fn parameters(&mut self, entries: &'a [ParamEntry]) -> Result<(), Memory>
        ensures { OnOk result
            (Puts (for_parameters parameter_items entries.now) self.old self.new) }
    {
        self.push(Item::ParameterCount(entries.len()))?;
        for entry in entries {
            self.parameter(entry)?;
        }
        Ok(())
    }

    fn parameter(&mut self, entry: &'a ParamEntry) -> Result<(), Memory>
        ensures { OnOk result (Puts (parameter_items entry.now) self.old self.new) }
    {
        self.text_or_none(&entry.name)?;
        self.flags(entry.flags)
    }
}
