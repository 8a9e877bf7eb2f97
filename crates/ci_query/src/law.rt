ghost use Rattle.std.specs.Prelude.{◌≡◌, ◌⊎◌, ℕ, List, IsSome};
ghost use Rattle.ci_dialect.specs.Fault.{met_in};
ghost use Rattle.ci_dialect.specs.FirstFault.{IsFirstFault};
ghost use Rattle.ci_dialect.specs.Rule.{Rule};
ghost use Rattle.ci_dialect.specs.Tree.{IsTree};
ghost use Rattle.ci_dialect.specs.WellFormed.{IsWellFormed};
ghost use Rattle.ci_dialect.specs.declared.fault.QueryFault.{QueryFault};
ghost use Rattle.ci_dialect.specs.declared.restriction.Restriction.{Restriction};
ghost use Rattle.ci_dialect.specs.declared.sign.Sign.{Sign};
ghost use Rattle.ci_query.specs.Repetition.{IsNeverCut};

/// Of the grammar: a text has one tree or one first fault, and never both. A call does nothing:
/// the contract is what it is for.
pub fn query_law()
    ensures one_tree { (noise : List (List ℕ)) (text : List ℕ) (tree other : Restriction)
        → IsTree noise text tree → IsTree noise text other → tree ≡ other }
    ensures one_fault { (noise : List (List ℕ)) (text : List ℕ) (fault other : QueryFault)
        → IsFirstFault noise text fault → IsFirstFault noise text other → fault ≡ other }
    ensures never_both { (noise : List (List ℕ)) (text : List ℕ) (tree : Restriction)
        (fault : QueryFault) → IsTree noise text tree → IsFirstFault noise text fault → ⊥ }
    ensures tree_or_fault { (noise : List (List ℕ)) (text : List ℕ)
        → ((tree : Restriction) × IsTree noise text tree)
        ⊎ ((fault : QueryFault) × IsFirstFault noise text fault) }
    ensures in_the_text { (noise : List (List ℕ)) (text : List ℕ) (fault : QueryFault)
        → IsFirstFault noise text fault → IsSome (met_in fault) }
    ensures well_formed { (noise : List (List ℕ)) (text : List ℕ) (tree : Restriction)
        → IsTree noise text tree → IsWellFormed tree }
{}

/// No repetition ends for want of a turn, whatever rule is repeated. A call does nothing.
pub fn repetition_law()
    ensures never_cut { (s : Sign) (rule : Rule) → IsNeverCut s rule }
{}
