ghost use Rattle.ci_dialect.specs.Grammar as spec;
ghost use Rattle.ci_query.specs.Reading.{Reads, read};

use crate::phrase::restriction_of;
use crate::reader::Reader;
use crate::value::{compared, patterned, worded};
use crate::{QueryFault, Restriction};
use ci_base::PropNo;
use ci_pieces::{Piece, PieceKind};
use ci_words::NoiseList;
use std::alloc::Global;

/// The property of a document's text.
const CONTENTS: PropNo = PropNo(1);

/// Words, or a prefix run, of a document's text.
#[tactic(auto, unfolding(ci_dialect::specs::Grammar::words))]
pub fn words(
    alloc: Global,
    noise: &NoiseList,
    reader: &mut Reader<'_, '_>,
) -> Result<Restriction, QueryFault>
    ensures reads { Reads (read (spec.words noise.now) reader.old) result reader.new }
{
    let (items, words) = reader.items(alloc)?;
    restriction_of(alloc, noise, CONTENTS, items, words)
}

/// `@` and a name, with words, or with a comparison and a value.
#[tactic(auto, unfolding(ci_dialect::specs::Grammar::property_term))]
pub fn property_term(
    alloc: Global,
    noise: &NoiseList,
    reader: &mut Reader<'_, '_>,
) -> Result<Restriction, QueryFault>
    ensures reads { Reads (read (spec.property_term noise.now) reader.old) result reader.new }
{
    let name = reader.take()?;
    match reader.peek() {
        Some(PieceKind::Run | PieceKind::Quoted) => named_words(alloc, noise, reader, name),
        Some(PieceKind::Relates(relation)) => {
            reader.step();
            let given = reader.value()?;
            compared(alloc, name, relation, given)
        }
        _ => Err(reader.refuse()),
    }
}

// Words of a property.
fn named_words(
    alloc: Global,
    noise: &NoiseList,
    reader: &mut Reader<'_, '_>,
    name: &Piece<'_>,
) -> Result<Restriction, QueryFault>
    ensures reads { Reads (read (spec.named_words noise.now name.now) reader.old) result reader.new }
{
    let (items, words) = reader.items(alloc)?;
    let property = worded(name)?;
    restriction_of(alloc, noise, property, items, words)
}

/// `#` and a name, with a value.
#[tactic(auto, unfolding(ci_dialect::specs::Grammar::pattern_term))]
pub fn pattern_term(alloc: Global, reader: &mut Reader<'_, '_>) -> Result<Restriction, QueryFault>
    ensures reads { Reads (read spec.pattern_term reader.old) result reader.new }
{
    let name = reader.take()?;
    let given = reader.value()?;
    patterned(alloc, name, given)
}
