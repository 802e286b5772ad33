ghost use Rattle.std.specs.Prelude.{◌≡◌, IfOk};
ghost use Rattle.questions.specs.Asking.{question_of};
ghost use Rattle.questions.specs.Asked.{maybe_question_seen};

use crate::kind::Kind;
use crate::query::Query;
use hdr_core::Memory;
use std::alloc::Global;

/// A question, with the value of its option as written.
#[derive(Drop)]
pub struct Question<'a> {
    pub kind: Kind,
    pub value: &'a str,
    pub query: Query,
}

impl<'a> Question<'a> {
    /// The question that an option's value asks: none where it hasn't the form for that.
    pub fn of(alloc: Global, kind: Kind, value: &'a str) -> Result<Option<Question<'a>>, Memory>
        ensures { IfOk result (λ question.
            maybe_question_seen question ≡ question_of kind value.now) }
    {
        Ok(match Query::of(alloc, kind, value)? {
            Some(query) => Some(Question { kind, value, query }),
            None => None,
        })
    }
}
