// Words are filed under their keys, document by document.
ghost use Rattle.std.specs.Prelude.{◌≡◌, ◌++◌, [], ◌∷◌, None, All, IfOk, OnOk, map, if◌then◌else◌};
ghost use Rattle.std.specs.BTreeMap.{IsOrdered, get};
ghost use Rattle.std.specs.Ordering.{is_eq};
ghost use Rattle.ci_keys.specs.Key.{key_cmp};
ghost use Rattle.ci_keys.specs.Postings.{IsPostings};
ghost use Rattle.ci_keys.specs.declared.key.Key.{Key as AnyKey};
ghost use Rattle.ci_wordlist.specs.Filing.{NoneEmpty, filed, held};

use ci_base::{DocNo, OutOfMemory};
use ci_keys::{Key, Places, Postings};
use std::alloc::Global;
use std::collections::BTreeMap;

/// What is filed under each key, in the order in which it came.
pub type Index = BTreeMap<Key, Vec<(DocNo, Places)>>;

/// Files the words of one document.
pub fn file_words(
    alloc: Global,
    index: &mut Index,
    doc: DocNo,
    words: &[(Key, Places)],
) -> Result<(), OutOfMemory>
    requires some { NoneEmpty index.old }
    requires order { IsOrdered key_cmp index.old }
    ensures held { OnOk result ((key : AnyKey) →
        held index.new key ≡ held index.old key ++ filed key (doc, words.now)) }
    ensures some { OnOk result (NoneEmpty index.new) }
    ensures order { OnOk result (IsOrdered key_cmp index.new) }
{
    for (key, places) in words {
        file_word(alloc, index, doc, key, places)?;
    }
    Ok(())
}

fn file_word(
    alloc: Global,
    index: &mut Index,
    doc: DocNo,
    key: &Key,
    places: &Places,
) -> Result<(), OutOfMemory>
    requires some { NoneEmpty index.old }
    ensures held { OnOk result ((other : AnyKey) → held index.new other ≡ held index.old other
        ++ (if is_eq (key_cmp key.now other) then (doc, places.now) ∷ [] else [])) }
    ensures some { OnOk result (NoneEmpty index.new) }
    ensures order { OnOk result (IsOrdered key_cmp index.new) }
{
    let mut postings = take_out(alloc, index, key);
    postings.push((doc, places.copy(alloc)?))?;
    index.insert(key.copy(alloc)?, postings)?;
    Ok(())
}

// What was filed under the key, which is taken out of the map.
fn take_out(alloc: Global, index: &mut Index, key: &Key) -> Vec<(DocNo, Places)>
    ensures held { result.items ≡ held index.old key.now }
    ensures others { (other : AnyKey) → get key_cmp index.new other
        ≡ (if is_eq (key_cmp key.now other) then None else get key_cmp index.old other) }
{
    match index.remove(key) {
        Some(postings) => postings,
        None => Vec::new(alloc),
    }
}

/// The keys in their order, each with its postings.
pub fn keys_of(alloc: Global, index: Index) -> Result<Vec<(Key, Postings)>, OutOfMemory>
    requires { All (λ key. IsPostings key.1.items) index.entries }
    ensures { IfOk result (λ keys.
        keys.items ≡ map (λ key. (key.0, key.1.items)) index.entries) }
{
    let mut keys = Vec::new(alloc);
    for (key, postings) in index {
        keys.push((key, Postings::new(postings)))?;
    }
    Ok(keys)
}
