// Lists of accesses made by transactions: which transaction leads to which, and when a list can be rearranged into a serial one.
// Each function does nothing: its contract is a theorem,
// over every test `conflict` of whether two accesses conflict by their items and modes.
#![tactic(auto)]

ghost use Rattle.std.specs.Prelude.{◌≡◌, Bool, ◌⊎◌, ◌↔◌, List, [], ◌∷◌, ◌++◌, ◌≢◌};
ghost use Rattle.serial.specs.Accesses.{Access, Leads, Transaction, made_by};
ghost use Rattle.serial.specs.Arrangements.{OnlyOwnBetween, Serial, Serializable};
ghost use Rattle.serial.specs.Changes.{Adds, AllBut, Made, MadeConflicting, Reaches, kept};
ghost use Rattle.serial.specs.Paths.{Cycle, In, PathIn};

// A list of accesses is serializable by interchange exactly when no transaction has a path back to itself.
pub fn serializable_exactly_without_cycle()
    ensures { (conflict : Access → Access → Bool) (xs : List Access) →
        Serializable made_by conflict xs ↔ (Cycle made_by conflict xs → ⊥) }
{}

// Every transaction's accesses stand next to one another exactly when
// between two accesses of one transaction stand only accesses of it.
pub fn serial_exactly_when_only_own_between()
    ensures { (xs : List Access) → Serial made_by xs ↔ OnlyOwnBetween made_by xs }
{}

// Where b joins the set that paths may go through, there is a path exactly when
// there was one before, or one into b and one out of b.
pub fn one_more_stop_joins_paths_into_it_and_out_of_it()
    ensures { (conflict : Access → Access → Bool) (xs : List Access) (b : Transaction) (before after : Transaction → Bool) →
        Adds b before after → (s t : Transaction) →
        PathIn made_by conflict xs after s t ↔
        (PathIn made_by conflict xs before s t ⊎ (PathIn made_by conflict xs before s b × PathIn made_by conflict xs before b t)) }
{}

// Among the kept accesses of a set of transactions s leads to t exactly when
// both are in the set and s leads to t in the whole list.
pub fn kept_accesses_lead_as_in_the_whole()
    ensures { (conflict : Access → Access → Bool) (xs : List Access) (set : Transaction → Bool) (s t : Transaction) →
        Leads made_by conflict (kept made_by set xs) s t ↔ (In set s × In set t × Leads made_by conflict xs s t) }
{}

// The kept accesses of a set of transactions have a cycle exactly when
// one of the set has, in the whole list, a path back to itself through the set.
pub fn kept_cycle_is_a_path_back_through_kept()
    ensures { (conflict : Access → Access → Bool) (xs : List Access) (set : Transaction → Bool) →
        Cycle made_by conflict (kept made_by set xs) ↔ ((t : Transaction) × In set t × PathIn made_by conflict xs set t t) }
{}

// Where the committed accesses had no cycle and b commits, they have one now exactly when
// b had a path back to itself through committed transactions.
pub fn one_more_commit_makes_a_cycle_exactly_through_itself()
    ensures { (conflict : Access → Access → Bool) (xs : List Access) (b : Transaction) (before after : Transaction → Bool) →
        Adds b before after → (Cycle made_by conflict (kept made_by before xs) → ⊥) →
        Cycle made_by conflict (kept made_by after xs) ↔ PathIn made_by conflict xs before b b }
{}

// One more access y, by a transaction that is not committed, adds paths into that transaction and no others: from each s
// that made an access that conflicts with y, or that reaches a committed transaction that did.
pub fn access_adds_only_paths_into_its_transaction()
    ensures { (conflict : Access → Access → Bool) (xs : List Access) (y : Access) (committed : Transaction → Bool) →
        (In committed (made_by y) → ⊥) → (s t : Transaction) →
        PathIn made_by conflict (xs ++ (y ∷ [])) committed s t ↔
        (PathIn made_by conflict xs committed s t ⊎ ((t ≡ made_by y) ×
        (MadeConflicting made_by conflict y xs s ⊎ Reaches made_by conflict xs committed (MadeConflicting made_by conflict y xs) s))) }
{}

// One more access, by a transaction that is not committed, leaves what committed transactions made and who reaches them.
pub fn access_leaves_what_is_reached()
    ensures { (conflict : Access → Access → Bool) (xs : List Access) (y : Access) (committed : Transaction → Bool) →
        (In committed (made_by y) → ⊥) → (test : Access → Bool) (s : Transaction) →
        Reaches made_by conflict (xs ++ (y ∷ [])) committed (Made made_by test (xs ++ (y ∷ []))) s ↔
        Reaches made_by conflict xs committed (Made made_by test xs) s }
{}

// After b's commit s reaches a committed transaction that made an access that passes a test exactly when
// it did before, or had a path to b, and b made such an access or reached such a transaction.
pub fn commit_hands_on_what_it_made_and_reaches()
    ensures { (conflict : Access → Access → Bool) (xs : List Access) (b : Transaction) (before after : Transaction → Bool) →
        Adds b before after → (test : Access → Bool) (s : Transaction) →
        Reaches made_by conflict xs after (Made made_by test xs) s ↔
        (Reaches made_by conflict xs before (Made made_by test xs) s ⊎ (PathIn made_by conflict xs before s b ×
        (Made made_by test xs b ⊎ Reaches made_by conflict xs before (Made made_by test xs) b))) }
{}

// An aborted b is never committed: without its accesses the paths from b and to b are gone, and no others.
pub fn abort_removes_only_paths_from_it_and_to_it()
    ensures { (conflict : Access → Access → Bool) (xs : List Access) (b : Transaction) (committed others : Transaction → Bool) →
        (In committed b → ⊥) → AllBut b others → (s t : Transaction) →
        PathIn made_by conflict (kept made_by others xs) committed s t ↔
        ((s ≢ b) × (t ≢ b) × PathIn made_by conflict xs committed s t) }
{}

// Without the accesses of an aborted b the others reach the committed transactions that they reached before.
pub fn abort_leaves_what_others_reach()
    ensures { (conflict : Access → Access → Bool) (xs : List Access) (b : Transaction) (committed others : Transaction → Bool) →
        (In committed b → ⊥) → AllBut b others → (test : Access → Bool) (s : Transaction) →
        Reaches made_by conflict (kept made_by others xs) committed (Made made_by test (kept made_by others xs)) s ↔
        ((s ≢ b) × Reaches made_by conflict xs committed (Made made_by test xs) s) }
{}
