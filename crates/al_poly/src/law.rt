ghost use Rattle.std.specs.Prelude.{◌≡◌, ◌<◌, ◌≤◌, ◌++◌, ◌∷◌, List, Option, All, true, false, length};
ghost use Rattle.al_tree.specs.declared.item.Item.{Item as SpecItem};
ghost use Rattle.al_poly.specs.declared.instance.Instance.{Instance as SpecInstance};
ghost use Rattle.al_poly.specs.Instances.{instances, is_there};
ghost use Rattle.al_poly.specs.Closed.{named_in, StandsIn, IsNamed};

/// The laws of the list of instances of a text: it has at most 257 entries; none stands twice; each is named by the text or
/// by an entry before it; and where there are fewer than 257, all that the text and the entries name stands there. The
/// function does nothing.
pub fn instances_law()
    ensures cut { (items : List SpecItem) → length (instances items) ≤ 257 }
    ensures once { (items : List SpecItem) (front : List SpecInstance) (i : SpecInstance) (rest : List SpecInstance) → instances items ≡ front ++ i ∷ rest → is_there front i ≡ false }
    ensures named { (items : List SpecItem) (front : List SpecInstance) (i : SpecInstance) (rest : List SpecInstance) → instances items ≡ front ++ i ∷ rest → IsNamed items front i }
    ensures all_there { (items : List SpecItem) (inside : Option SpecInstance) → length (instances items) < 257 → StandsIn (instances items) inside → All (λ i. is_there (instances items) i ≡ true) (named_in items inside) }
{}
