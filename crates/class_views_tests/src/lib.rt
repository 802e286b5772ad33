//! Examples of what clients find: tables of worlds, questions and answers, in a crate of their
//! own.
#![tactic(auto)]

ghost use Rattle.class_views_tests.specs.Classes.{Agree};
ghost use Rattle.class_views_tests.specs.Declared.{declared_examples};
ghost use Rattle.class_views_tests.specs.Fields.{field_examples};
ghost use Rattle.class_views_tests.specs.Hiding.{HidingAgrees};
ghost use Rattle.class_views_tests.specs.Methods.{class_examples, interface_examples};
ghost use Rattle.class_views_tests.specs.Rings.{ring_examples};
ghost use Rattle.class_views_tests.specs.Telling.{choice_examples, access_examples};
ghost use Rattle.class_views_tests.specs.Views.{ClassAgrees, FieldAgrees, MethodAgrees};
ghost use Rattle.class_views_tests.specs.Views.{PlainAgrees};

/// Each question about the examples has the answer that stands beside it.
pub fn answers_agree()
    ensures fields { Agree field_examples }
    ensures rings { Agree ring_examples }
    ensures interfaces { Agree interface_examples }
    ensures classes { Agree class_examples }
    ensures declared { Agree declared_examples }
    ensures choice { Agree choice_examples }
    ensures access { Agree access_examples }
    ensures hiding { HidingAgrees }
{}

/// The views of a class and its members, with every attribute at every place, are those that stand
/// beside them.
pub fn views_agree()
    ensures field { FieldAgrees }
    ensures method { MethodAgrees }
    ensures class { ClassAgrees }
    ensures plain { PlainAgrees }
{}
