ghost use Rattle.std.specs.Prelude.{◌≡◌, ◌≢◌, IfErr, IfOk};
ghost use Rattle.ci_dialect.specs.FirstFault.{IsFirstFault};
ghost use Rattle.ci_dialect.specs.Grammar as spec;
ghost use Rattle.ci_query.specs.Reading.{Reads, read};
ghost use Rattle.ci_dialect.specs.Tree.{IsTree};
ghost use Rattle.ci_dialect.specs.WellFormed.{IsWellFormed};
ghost use Rattle.ci_dialect.specs.declared.fault.QueryFault.{QueryFault as Fault};
ghost use Rattle.ci_dialect.specs.declared.restriction.Restriction.{Restriction as Node};

use crate::grammar::{Grammar, instead};
use crate::reader::Reader;
use crate::{QueryFault, Restriction};
use ci_dialect::Opener;
use ci_pieces::pieces;
use ci_words::NoiseList;
use std::alloc::Global;

/// How many signs `(` and `!` may be open at once, which bounds the stack.
pub const OPEN_SIGNS: usize = 64;

/// The tree of a query, or the first fault in it.
pub fn parse(alloc: Global, text: &str, noise: &NoiseList) -> Result<Restriction, QueryFault>
    ensures ok { IfOk result (λ tree. IsTree noise.now text.now tree) }
    ensures err { IfErr result (λ fault. fault ≢ QueryFault.OutOfMemory →
        IsFirstFault noise.now text.now fault) }
    ensures every_tree { (tree : Node) → IsTree noise.now text.now tree →
        result ≢ Err QueryFault.OutOfMemory → result ≡ Ok tree }
    ensures every_fault { (fault : Fault) → IsFirstFault noise.now text.now fault →
        result ≢ Err QueryFault.OutOfMemory → result ≡ Err fault }
    ensures well_formed { IfOk result IsWellFormed }
{
    let pieces = pieces(alloc, text)?;
    whole(
        alloc,
        noise,
        &mut Reader::new(pieces.as_slice(), text.len()),
    )
}

// A query, behind which the text ends.
#[tactic(auto, unfolding(ci_dialect::specs::Grammar::whole))]
fn whole(
    alloc: Global,
    noise: &NoiseList,
    reader: &mut Reader<'_, '_>,
) -> Result<Restriction, QueryFault>
    ensures { Reads (read (spec.whole noise.now) reader.old) result reader.new }
{
    let grammar = Grammar {
        alloc,
        noise,
        depth: OPEN_SIGNS,
        opened,
    };
    let tree = grammar.query(reader)?;
    match reader.peek() {
        None => Ok(tree),
        Some(_) => instead(tree, reader.refuse()),
    }
}

// An opening sign and what stands behind it, where `depth` signs more may be open.
fn opened(
    alloc: Global,
    noise: &NoiseList,
    reader: &mut Reader<'_, '_>,
    depth: usize,
    by: Opener,
) -> Result<Restriction, QueryFault>
    ensures { Reads (read (spec.opened noise.now depth by) reader.old) result reader.new }
{
    if depth == 0 {
        let at = reader.place();
        return Err(QueryFault::TooDeep { at });
    }
    reader.step();
    let grammar = Grammar {
        alloc,
        noise,
        depth: depth - 1,
        opened,
    };
    match by {
        Opener::Parenthesis => grammar.query(reader),
        Opener::Not => grammar.negation(reader),
    }
}
