//! The rules that hold other rules take the reader of what stands behind an opening sign as a
//! parameter, so that each is proved by itself.

ghost use Rattle.std.specs.Prelude.{◌≡◌, ◌∷◌};
ghost use Rattle.ci_dialect.specs.Grammar as spec;
ghost use Rattle.ci_dialect.specs.Joined as terms;
ghost use Rattle.ci_dialect.specs.Rule.{Expect, Give, Repeat};
ghost use Rattle.ci_query.specs.Reading.{Reads, read};
ghost use Rattle.ci_query.specs.Opens.{Opens};

use crate::operands::{all_of, any_of};
use crate::reader::Reader;
use crate::repetition::read_list;
use crate::term::{pattern_term, property_term, words};
use crate::{QueryFault, Restriction};
use ci_base::PropNo;
use ci_dialect::{Opener, Sign};
use ci_pieces::PieceKind;
use ci_words::NoiseList;
use sqlite_items::{Boxed, Items};
use std::alloc::Global;
use std::marker::Brand;

#[derive(Drop)]
pub struct Grammar<'n, F> {
    pub alloc: Global,
    pub noise: &'n NoiseList,
    /// How many signs more may be open.
    pub depth: usize,
    pub opened: F,
}

impl<
    'n,
    F: Fn(
        Global,
        &NoiseList,
        &mut Reader<'_, '_>,
        usize,
        Opener,
    ) -> Result<Restriction, QueryFault>,
> Grammar<'n, F> {
    /// all { "|" all }
    #[tactic(auto, unfolding(ci_dialect::specs::Grammar::query))]
    pub fn query(&self, reader: &mut Reader<'_, '_>) -> Result<Restriction, QueryFault>
        requires { Opens self.now.depth (F.pre self.now.opened) (F.post self.now.opened) }
        ensures { Reads (read (spec.query self.now.noise.now
            (spec.opened self.now.noise.now self.now.depth)) reader.old) result reader.new }
    {
        let first = self.all(reader)?;
        let all = read_list::<Brand, _>(self.alloc, reader, Sign::Or, first, |it| self.all(it))?;
        Ok(any_of(all))
    }

    /// not { "&" not }
    #[tactic(auto, unfolding(ci_dialect::specs::Grammar::all))]
    fn all(&self, reader: &mut Reader<'_, '_>) -> Result<Restriction, QueryFault>
        requires { Opens self.now.depth (F.pre self.now.opened) (F.post self.now.opened) }
        ensures { Reads (read (spec.all self.now.noise.now
            (spec.opened self.now.noise.now self.now.depth)) reader.old) result reader.new }
    {
        let first = self.negation(reader)?;
        let all = read_list::<Brand, _>(self.alloc, reader, Sign::And, first, |it| {
            self.negation(it)
        })?;
        Ok(all_of(all))
    }

    /// "!" not | near
    #[tactic(auto, unfolding(ci_dialect::specs::Grammar::negation))]
    pub fn negation(&self, reader: &mut Reader<'_, '_>) -> Result<Restriction, QueryFault>
        requires { Opens self.now.depth (F.pre self.now.opened) (F.post self.now.opened) }
        ensures { Reads (read (spec.negation self.now.noise.now
            (spec.opened self.now.noise.now self.now.depth)) reader.old) result reader.new }
    {
        match reader.peek() {
            Some(PieceKind::Not) => {
                let inner = self.opened(reader, Opener::Not)?;
                Ok(Restriction::Not(Boxed::new(self.alloc, inner)?))
            }
            _ => self.near(reader),
        }
    }

    /// prime { "~" prime }
    #[tactic(auto, unfolding(ci_dialect::specs::Grammar::near, ci_dialect::specs::Grammar::near_others))]
    fn near(&self, reader: &mut Reader<'_, '_>) -> Result<Restriction, QueryFault>
        requires { Opens self.now.depth (F.pre self.now.opened) (F.post self.now.opened) }
        ensures { Reads (read (spec.near self.now.noise.now
            (spec.opened self.now.noise.now self.now.depth)) reader.old) result reader.new }
    {
        let at = reader.place();
        let first = self.prime(reader)?;
        if !reader.sees(Sign::Near) {
            return Ok(first);
        }
        match property_in(&first) {
            Some(property) => self.near_terms(reader, property, first),
            None => instead(first, QueryFault::Bad { at }),
        }
    }

    // The first operand of `~` has to be words or a phrase, and the others of its property.
    fn near_terms(
        &self,
        reader: &mut Reader<'_, '_>,
        property: PropNo,
        first: Restriction,
    ) -> Result<Restriction, QueryFault>
        requires { Opens self.now.depth (F.pre self.now.opened) (F.post self.now.opened) }
        ensures { Reads (read (Repeat Sign.Near (spec.near_operand self.now.noise.now
            (spec.opened self.now.noise.now self.now.depth) property)
            (λ others. Give (Restriction.Proximity property (first ∷ others)))) reader.old)
            result reader.new }
    {
        let terms = read_list::<Brand, _>(self.alloc, reader, Sign::Near, first, |it| {
            self.near_operand(it, property)
        })?;
        let terms = Items::from_vec(terms);
        Ok(Restriction::Proximity { property, terms })
    }

    #[tactic(auto, unfolding(ci_dialect::specs::Grammar::near_operand))]
    fn near_operand(
        &self,
        reader: &mut Reader<'_, '_>,
        property: PropNo,
    ) -> Result<Restriction, QueryFault>
        requires { Opens self.now.depth (F.pre self.now.opened) (F.post self.now.opened) }
        ensures { Reads (read (spec.near_operand self.now.noise.now
            (spec.opened self.now.noise.now self.now.depth) property) reader.old)
            result reader.new }
    {
        let at = reader.place();
        let term = self.prime(reader)?;
        same_property(property, at, term)
    }

    /// "(" query ")" | words | "@" .. | "#" ..
    #[tactic(auto, unfolding(ci_dialect::specs::Grammar::prime))]
    fn prime(&self, reader: &mut Reader<'_, '_>) -> Result<Restriction, QueryFault>
        requires { Opens self.now.depth (F.pre self.now.opened) (F.post self.now.opened) }
        ensures { Reads (read (spec.prime self.now.noise.now
            (spec.opened self.now.noise.now self.now.depth)) reader.old) result reader.new }
    {
        match reader.peek() {
            Some(PieceKind::Open) => {
                let inner = self.opened(reader, Opener::Parenthesis)?;
                closed(reader, inner)
            }
            Some(PieceKind::Run | PieceKind::Quoted) => words(self.alloc, self.noise, reader),
            Some(PieceKind::Property) => property_term(self.alloc, self.noise, reader),
            Some(PieceKind::Pattern) => pattern_term(self.alloc, reader),
            _ => Err(reader.refuse()),
        }
    }

    fn opened(&self, reader: &mut Reader<'_, '_>, by: Opener) -> Result<Restriction, QueryFault>
        requires { Opens self.now.depth (F.pre self.now.opened) (F.post self.now.opened) }
        ensures { Reads (read (spec.opened self.now.noise.now self.now.depth by) reader.old)
            result reader.new }
    {
        (self.opened)(self.alloc, self.noise, reader, self.depth, by)
    }
}

// The property of words or of a phrase.
#[tactic(auto, unfolding(ci_dialect::specs::Joined::property_in))]
fn property_in(term: &Restriction) -> Option<PropNo>
    ensures { result ≡ terms.property_in term.now }
{
    match term {
        Restriction::Content { property, .. } => Some(*property),
        Restriction::Phrase { property, .. } => Some(*property),
        _ => None,
    }
}

fn same_property(property: PropNo, at: u64, term: Restriction) -> Result<Restriction, QueryFault>
    ensures { result ≡ spec.same_property property at term (terms.property_in term) }
{
    match property_in(&term) {
        Some(other) if other.0 == property.0 => Ok(term),
        _ => instead(term, QueryFault::Bad { at }),
    }
}

// What stands in parentheses, if they end here.
fn closed(reader: &mut Reader<'_, '_>, inner: Restriction) -> Result<Restriction, QueryFault>
    ensures { Reads (read (Expect Sign.Close (Give inner)) reader.old) result reader.new }
{
    match reader.expect(Sign::Close) {
        Ok(()) => Ok(inner),
        Err(fault) => instead(inner, fault),
    }
}

/// A fault instead of a tree, which is let go here.
pub fn instead(_tree: Restriction, fault: QueryFault) -> Result<Restriction, QueryFault>
    ensures { result ≡ Err fault }
{
    Err(fault)
}
