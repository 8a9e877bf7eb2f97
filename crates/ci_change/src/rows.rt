ghost use Rattle.std.specs.Prelude.{◌≡◌, ◌<◌, ℕ, List, Some, length, slice_get, IsTrue, IsOk, IfOk};
ghost use Rattle.std.specs.Map.{keys_of};
ghost use Rattle.ci_change.specs.Register.{tried};
ghost use Rattle.ci_change.specs.Rows.{has_row, numbers_at, sets_aside, KeepsRows, Puts};

use ci_base::{OutOfMemory, PathText};
use indexmap::IndexMap;
use std::alloc::Global;

/// The number of a path's latest notice, its served number, and how often that notice was tried and
/// failed. 0 stands for none. Whether its filter refused it, and whether a batch that is out has the
/// path.
#[derive(Clone, Copy, Debug)]
pub struct Numbers {
    pub latest: u64,
    pub served: u64,
    pub attempts: u32,
    pub refused: bool,
    pub is_out: bool,
}

impl Numbers {
    /// These numbers when the latest notice was tried in vain, where it has this number: its filter
    /// refused it, or it failed once more.
    pub fn tried(self, number: u64, refuses: bool) -> Numbers
        ensures { result ≡ tried self number refuses }
    {
        if number == 0 || self.latest != number {
            return self;
        }
        if refuses {
            return Numbers {
                refused: true,
                ..self
            };
        }
        let attempts = self.attempts.saturating_add(1);
        Numbers { attempts, ..self }
    }

    /// Whether the latest notice is set aside: it was refused, or tried so often.
    pub fn sets_aside(self, retries: u32) -> bool
        ensures { result ≡ sets_aside self retries }
    {
        self.refused || retries <= self.attempts
    }
}

/// The rows of paths. None is ever taken out, so a path keeps its place.
pub type Rows = IndexMap<PathText, Numbers>;

/// The place of a path, which gets a row where it has none.
pub fn place_of(rows: &mut Rows, alloc: Global, path: &PathText) -> Result<usize, OutOfMemory>
    ensures place { IfOk result (λ at. slice_get (keys_of rows.new.entries) at ≡ Some path.now) }
    ensures within { IfOk result (λ at. at < length rows.new.entries) }
    ensures keeps { KeepsRows rows.old.entries rows.new.entries }
    ensures known { IsTrue (has_row rows.old.entries path.now) → IsOk result }
{
    match rows.get_index_of(path) {
        Some(place) => Ok(place),
        None => {
            let none = Numbers {
                latest: 0,
                served: 0,
                attempts: 0,
                refused: false,
                is_out: false,
            };
            let place = rows.len();
            rows.insert(path.copy(alloc)?, none)?;
            Ok(place)
        }
    }
}

/// Rows that equal these.
pub fn copy_rows(rows: &Rows, alloc: Global) -> Result<Rows, OutOfMemory>
    ensures { IfOk result (λ copied. copied.entries ≡ rows.now.entries) }
{
    let mut copied = IndexMap::with_capacity(alloc, rows.len())?;
    for (path, numbers) in rows {
        copied.insert(path.copy(alloc)?, *numbers)?;
    }
    Ok(copied)
}

/// The path at a place.
pub fn path_at(rows: &Rows, place: usize) -> &PathText
    requires { place < length rows.now.entries }
    ensures { slice_get (keys_of rows.now.entries) place ≡ Some result.now }
{
    rows.get_index(place).unwrap().0
}

/// The numbers of the path at a place.
pub fn numbers_of(rows: &Rows, place: usize) -> Numbers
    requires { place < length rows.now.entries }
    ensures { (path : List ℕ) → slice_get (keys_of rows.now.entries) place ≡ Some path →
        result ≡ numbers_at rows.now.entries path }
{
    *rows.get_index(place).unwrap().1
}

/// Whether the latest notice of the path at a place is set aside.
pub fn is_given_up(rows: &Rows, place: usize, retries: u32) -> bool
    requires { place < length rows.now.entries }
    ensures { (path : List ℕ) → slice_get (keys_of rows.now.entries) place ≡ Some path →
        result ≡ sets_aside (numbers_at rows.now.entries path) retries }
{
    numbers_of(rows, place).sets_aside(retries)
}

/// Whether a batch that is out has the path at a place.
pub fn is_out(rows: &Rows, place: usize) -> bool
    requires { place < length rows.now.entries }
    ensures { (path : List ℕ) → slice_get (keys_of rows.now.entries) place ≡ Some path →
        result ≡ (numbers_at rows.now.entries path).is_out }
{
    numbers_of(rows, place).is_out
}

/// Gives the path at a place new numbers.
pub fn put_numbers(rows: &mut Rows, place: usize, numbers: Numbers)
    requires { place < length rows.old.entries }
    ensures paths { keys_of rows.new.entries ≡ keys_of rows.old.entries }
    ensures puts { (path : List ℕ) → slice_get (keys_of rows.old.entries) place ≡ Some path →
        Puts rows.old.entries rows.new.entries path numbers }
{
    let (_, kept) = rows.pair_mut(place);
    *kept = numbers;
}

/// The served number of a path, or 0.
pub fn served_of(rows: &Rows, path: &PathText) -> u64
    ensures { result ≡ (numbers_at rows.now.entries path.now).served }
{
    match rows.get(path) {
        Some(numbers) => numbers.served,
        None => 0,
    }
}

/// The number of a path's latest notice, or 0.
pub fn latest_of(rows: &Rows, path: &PathText) -> u64
    ensures { result ≡ (numbers_at rows.now.entries path.now).latest }
{
    match rows.get(path) {
        Some(numbers) => numbers.latest,
        None => 0,
    }
}

/// Whether a path's latest notice is set aside.
pub fn is_set_aside(rows: &Rows, path: &PathText, retries: u32) -> bool
    ensures { result ≡ sets_aside (numbers_at rows.now.entries path.now) retries }
{
    match rows.get(path) {
        Some(numbers) => numbers.sets_aside(retries),
        None => retries == 0,
    }
}

/// How often a path's latest notice was tried and failed, or 0.
pub fn attempts_of(rows: &Rows, path: &PathText) -> u32
    ensures { result ≡ (numbers_at rows.now.entries path.now).attempts }
{
    match rows.get(path) {
        Some(numbers) => numbers.attempts,
        None => 0,
    }
}
