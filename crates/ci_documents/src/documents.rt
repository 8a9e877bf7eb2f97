ghost use Rattle.std.specs.Prelude.{◌≡◌, true, nat_lt, map, OnOk, IfOk, Some, None};
ghost use Rattle.std.specs.List.Sorted.{IsStrictlySortedBy};
ghost use Rattle.std.specs.Map.{keys_of};
ghost use Rattle.ci_journal.specs.Terms.{path_cmp};
ghost use Rattle.ci_documents.specs.Documents.{KeepsEntries, Serves, Settles, has_place, present};

use crate::{Plain, SharedEntry, Standing};
use ci_base::{OutOfMemory, PathText, Seq};
use ci_journal::Paths;
use std::alloc::Global;
use std::collections::BTreeMap;

/// The documents by their paths, in byte order.
pub type Documents = BTreeMap<PathText, Standing>;

/// Makes room for the entry of a path.
pub fn make_place(
    alloc: Global,
    documents: &mut Documents,
    path: &PathText,
) -> Result<(), OutOfMemory>
    ensures keeps { KeepsEntries documents.old.entries documents.new.entries }
    ensures place { OnOk result (has_place documents.new.entries path.now ≡ true) }
{
    if documents.contains_key(path) {
        return Ok(());
    }
    documents.insert(path.copy(alloc)?, Standing::empty())?;
    Ok(())
}

/// Gives the path this entry, in the room that was made for it, where the completion's number is
/// above the number that the path was served under.
pub fn serve(documents: &mut Documents, path: &PathText, served: Seq, seq: Seq, entry: SharedEntry)
    requires { has_place documents.old.entries path.now ≡ true }
    ensures { let counts = nat_lt served.0 seq.0 in
        Serves documents.old.entries documents.new.entries path.now counts entry }
{
    if served < seq {
        settle(documents, path, entry);
    }
}

fn settle(documents: &mut Documents, path: &PathText, entry: SharedEntry)
    requires { has_place documents.old.entries path.now ≡ true }
    ensures { Settles documents.old.entries documents.new.entries path.now (Some entry) }
{
    if let Some(standing) = documents.get_mut(path) {
        *standing = Standing::of(Some(entry));
    }
}

/// Takes the path's entry away, if it has one.
pub fn take_away(documents: &mut Documents, path: &PathText)
    ensures { Settles documents.old.entries documents.new.entries path.now None }
{
    if let Some(standing) = documents.get_mut(path) {
        *standing = Standing::empty();
    }
}

/// The documents with their entries, which are shared and not copied.
pub fn plain_list(alloc: Global, documents: &Documents) -> Result<Plain, OutOfMemory>
    ensures plain { IfOk result (λ plain. plain ≡ present documents.now.entries) }
    ensures order { IsStrictlySortedBy path_cmp (keys_of documents.now.entries) }
{
    let mut plain = Plain::new(alloc);
    for (path, standing) in documents.iter() {
        if let Some(entry) = standing.entry() {
            plain.add(path.copy(alloc)?, entry.share()?)?;
        }
    }
    Ok(plain)
}

/// The paths of the documents that have entries, in byte order.
pub fn paths_of(alloc: Global, documents: &Documents) -> Result<Paths, OutOfMemory>
    ensures paths { IfOk result (λ paths. paths
        ≡ map (λ d. d.0) (present documents.now.entries)) }
    ensures order { IsStrictlySortedBy path_cmp (keys_of documents.now.entries) }
{
    let mut paths = Paths::new(alloc);
    for (path, standing) in documents.iter() {
        if standing.entry().is_some() {
            paths.add(path.copy(alloc)?)?;
        }
    }
    Ok(paths)
}
