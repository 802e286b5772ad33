//! Packages and imports (JLS 7.4, 7.5).
ghost use Rattle.type_expr_parser.specs.Reading.{Gives};
ghost use Rattle.head_parser.specs.Units.{package_line, static_word, on_demand as on_demand_line};
ghost use Rattle.head_parser.specs.Units.{import_line};

use hdr_core::{List, Text};
use java_ast::Import;
use java_grammar::{Reader, Sign};
use productions::{semicolon, sign_on_line};
use std::alloc::Global;
use type_expr_parser::{Unread, comes, qualified_name, sign};

/// The name of the package, of which the text is the declaration.
#[tactic(auto, unfolding(crate::specs::Units::package_line))]
pub fn package(alloc: Global, reader: &mut Reader<'_>, depth: u32) -> Result<List<Text>, Unread>
    ensures { Gives (λ words. words) result reader.new (package_line.read depth reader.old) }
{
    sign(reader, Sign::Package)?;
    let words = qualified_name(alloc, reader, depth)?;
    semicolon(reader)?;
    Ok(words)
}

#[tactic(auto, unfolding(crate::specs::Units::static_word))]
fn is_static(reader: &mut Reader<'_>) -> Result<bool, Unread>
    ensures { Gives (λ is. is) result reader.new (static_word.read 0 reader.old) }
{
    if !comes(reader, Sign::Static) {
        return Ok(false);
    }
    sign(reader, Sign::Static)?;
    Ok(true)
}

/// Whether `.*` comes.
#[tactic(auto, unfolding(crate::specs::Units::on_demand, crate::specs::Units::dot_star))]
fn on_demand(reader: &mut Reader<'_>) -> Result<bool, Unread>
    ensures { Gives (λ is. is) result reader.new (on_demand_line.read 0 reader.old) }
{
    if !comes(reader, Sign::Dot) {
        return Ok(false);
    }
    sign(reader, Sign::Dot)?;
    sign(reader, Sign::Star)?;
    Ok(true)
}

/// An import.
#[tactic(auto, unfolding(crate::specs::Units::import_line, crate::specs::Units::static_word, crate::specs::Units::on_demand, crate::specs::Units::dot_star))]
pub fn import(alloc: Global, reader: &mut Reader<'_>, depth: u32) -> Result<Import, Unread>
    ensures { Gives (λ import. import) result reader.new (import_line.read depth reader.old) }
{
    let line = sign_on_line(reader, Sign::Import)?;
    let is_static = is_static(reader)?;
    let names = qualified_name(alloc, reader, depth)?;
    let on_demand = on_demand(reader)?;
    semicolon(reader)?;
    Ok(Import {
        line,
        is_static,
        names,
        on_demand,
    })
}
