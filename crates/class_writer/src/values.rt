//! Values and annotations (JVMS 4.7.16).
ghost use Rattle.std.specs.Prelude.{◌≡◌, OnOk};
ghost use Rattle.class_desc.specs.Layout.{value_items, annotation_items, element_items};
ghost use Rattle.class_desc.specs.Layout.{annotation_list, counted, for_parameters};
ghost use Rattle.class_writer.specs.Writing.{Puts};

use crate::item::Item;
use crate::items::Items;
use crate::need::{Place, need_of};
use class_desc::{AnnDesc, ElemPair, ElemValue, element_tag};
use hdr_core::{List, Memory};

impl<'a> Items<'a> {
    #[cycle(values)]
    pub fn value(&mut self, value: &'a ElemValue) -> Result<(), Memory>
        ensures { OnOk result (Puts (value_items value.now) self.old self.new) }
    {
        match value {
            ElemValue::Const { tag, value } => {
                self.push(Item::Tag(*tag))?;
                self.push(Item::EntryNumber(need_of(value, Place::Element)))
            }
            ElemValue::Enumerated { descriptor, name } => {
                self.push(Item::Tag(element_tag::ENUMERATED))?;
                self.text(descriptor)?;
                self.text(name)
            }
            ElemValue::ClassOf(descriptor) => {
                self.push(Item::Tag(element_tag::CLASS))?;
                self.text(descriptor)
            }
            ElemValue::Nested(annotation) => {
                self.push(Item::Tag(element_tag::ANNOTATION))?;
                self.annotation(annotation.get())
            }
            ElemValue::List(values) => {
                self.push(Item::Tag(element_tag::LIST))?;
                self.values(values.items())
            }
        }
    }

    #[cycle(values)]
    fn values(&mut self, values: &'a [ElemValue]) -> Result<(), Memory>
        ensures { OnOk result (Puts (counted value_items values.now) self.old self.new) }
    {
        self.push(Item::Count(values.len()))?;
        for value in values {
            self.value(value)?;
        }
        Ok(())
    }

    #[cycle(values)]
    fn annotation(&mut self, annotation: &'a AnnDesc) -> Result<(), Memory>
        ensures { OnOk result (Puts (annotation_items annotation.now) self.old self.new) }
    {
        self.text(&annotation.descriptor)?;
        self.elements(annotation.elements.items())
    }

    #[cycle(values)]
    fn elements(&mut self, elements: &'a [ElemPair]) -> Result<(), Memory>
        ensures { OnOk result (Puts (counted element_items elements.now) self.old self.new) }
    {
        self.push(Item::Count(elements.len()))?;
        for element in elements {
            self.element(element)?;
        }
        Ok(())
    }

    #[cycle(values)]
    fn element(&mut self, element: &'a ElemPair) -> Result<(), Memory>
        ensures { OnOk result (Puts (element_items element.now) self.old self.new) }
    {
        self.text(&element.name)?;
        self.value(&element.value)
    }

    pub fn annotations(&mut self, annotations: &'a [AnnDesc]) -> Result<(), Memory>
        ensures { OnOk result (Puts (annotation_list annotations.now) self.old self.new) }
    {
        self.push(Item::Count(annotations.len()))?;
        for annotation in annotations {
            self.annotation(annotation)?;
        }
        Ok(())
    }

    /// A list of annotations for each parameter.
    pub fn annotations_of_parameters(&mut self, lists: &'a [List<AnnDesc>]) -> Result<(), Memory>
        ensures { OnOk result (Puts (for_parameters annotation_list lists.now) self.old self.new) }
    {
        self.push(Item::ParameterCount(lists.len()))?;
        for list in lists {
            self.annotations(list.items())?;
        }
        Ok(())
    }
}
