ghost use Rattle.std.specs.Prelude.{◌≡◌, ℕ, List, Some, slice_get, take};
ghost use Rattle.ci_journal.specs.declared.event.Event.{Event};
ghost use Rattle.ci_journal.specs.Law.{AllAnswer};
ghost use Rattle.ci_journal.specs.Step.{Chain, May, Run};
ghost use Rattle.ci_journal.specs.Terms.{Terms};

/// What a run says of each of its places. A call does nothing: the contract is what it is for.
pub fn law()
    // Each event might come behind the events before it.
    ensures each { (terms : Terms) (journal : List Event) (place : ℕ) (event : Event) →
        Run terms journal → slice_get journal place ≡ Some event →
        May terms (take place journal) event.by event.what }

    // So might the events before a place, one behind the other.
    ensures before { (terms : Terms) (journal : List Event) (place : ℕ) → Run terms journal →
        Chain terms (take place journal) }

    // Each answer lists the hits at its own point, which stands after its asking.
    ensures answers { (terms : Terms) (journal : List Event) → Run terms journal →
        AllAnswer terms journal }
{}
