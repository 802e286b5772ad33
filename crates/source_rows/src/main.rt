//! Sources as rows of data: their tokens, how these are cut into segments, where an initialiser
//! ends, what passes no count, and the trees of types, annotations and expressions.
#![tactic(auto)]

mod fronts;
mod heads;
mod lexing;
mod segmented;
mod told;
mod trees;

use fronts::{
    annotation_length, annotation_line, annotation_of_reader, expression_of, type_length,
    type_line, type_of_reader,
};
use heads::{ends_at, fits};
use java_grammar::{expression_fits, head_fits, tokens_fit};
use lexing::{tokens_of, told_both_ways};
use rows::{Asked, RowErr, Subject, Told, tell_rows};
use segmented::{bad_line, cut_as, refusal_of};
use std::alloc::Global;
use std::io;
use told::text;

/// The questions of sources.
struct Sources;

impl Subject for Sources {
    fn answer(&self, alloc: Global, asked: Asked<'_>) -> Result<Told, RowErr> {
        match asked.question {
            "tokens" => text(told_both_ways(alloc, asked)),
            "segments" => text(cut_as(alloc, asked)),
            "unbalanced" => text(refusal_of(alloc, asked)),
            "bad-line" => text(bad_line(alloc, asked)),
            "initialiser" => text(ends_at(alloc, asked)),
            "head" => text(fits(alloc, head_fits(&tokens_of(alloc, asked)?))),
            "front" => text(fits(alloc, tokens_fit(&tokens_of(alloc, asked)?))),
            "whole" => text(fits(alloc, expression_fits(&tokens_of(alloc, asked)?))),
            "type" => text(type_of_reader(alloc, &tokens_of(alloc, asked)?)),
            "type-length" => text(type_length(alloc, &tokens_of(alloc, asked)?)),
            "type-line" => text(type_line(alloc, &tokens_of(alloc, asked)?)),
            "annotation" => text(annotation_of_reader(alloc, &tokens_of(alloc, asked)?)),
            "annotation-length" => text(annotation_length(alloc, &tokens_of(alloc, asked)?)),
            "annotation-line" => text(annotation_line(alloc, &tokens_of(alloc, asked)?)),
            "expression" => text(expression_of(alloc, &tokens_of(alloc, asked)?)),
            _ => Err(RowErr::NoQuestion),
        }
    }
}

fn main(rt: HostRuntime) -> io::Result<()> {
    tell_rows(&rt, &Sources)
}
