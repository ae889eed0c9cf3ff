ghost use Rattle.std.specs.Prelude.{◌≡◌, ℕ, ◌+◌, ◌<◌, ◌≤◌, List, length, slice_get, Some};
ghost use Rattle.al_base.specs.declared.place.Place.{Place as SpecPlace};
ghost use Rattle.al_tree.specs.declared.item.Item.{Item as SpecItem};
ghost use Rattle.al_declare.specs.declared.function.Defined.{Defined as SpecDefined};
ghost use Rattle.al_branches.specs.Numbers.{branches_at, numbers_of, branch_numbers};
ghost use Rattle.al_branches.specs.Law.{IsBranch, number_of, branch_count, Found};

/// The laws of the numbers of branches: the branches of all functions have the numbers behind the functions, each of them
/// one, and the lists have these where a program can. The function does nothing.
pub fn branch_numbers_law()
    ensures behind { (items : List SpecItem) (ds : List SpecDefined) (k : ℕ) (d : SpecDefined) (j : ℕ) → IsBranch items ds k d j → length ds ≤ number_of items ds k d j }
    ensures within { (items : List SpecItem) (ds : List SpecDefined) (k : ℕ) (d : SpecDefined) (j : ℕ) → IsBranch items ds k d j → number_of items ds k d j < length ds + branch_count items ds }
    ensures once { (items : List SpecItem) (ds : List SpecDefined) (k m : ℕ) (d e : SpecDefined) (j l : ℕ) → IsBranch items ds k d j → IsBranch items ds m e l → number_of items ds k d j ≡ number_of items ds m e l → (k ≡ m) × (j ≡ l) }
    ensures all { (items : List SpecItem) (ds : List SpecDefined) (n : ℕ) → length ds ≤ n → n < length ds + branch_count items ds → Found items ds n }
    ensures functions { (items : List SpecItem) (ds : List SpecDefined) (k : ℕ) (d : SpecDefined) → slice_get ds k ≡ Some d → slice_get (branch_numbers items ds) k ≡ Some (numbers_of items ds k d) }
    ensures given { (items : List SpecItem) (ds : List SpecDefined) (k : ℕ) (d : SpecDefined) (j : ℕ) (at : SpecPlace) → slice_get (branches_at items d.item) j ≡ Some at → number_of items ds k d j ≤ 4294967295 → slice_get (numbers_of items ds k d) j ≡ Some (record { at = at; number = number_of items ds k d j }) }
{}
