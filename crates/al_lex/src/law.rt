ghost use Rattle.std.specs.Prelude.{◌≡◌, ◌⊎◌, List, ℕ, All};
ghost use Rattle.al_lex.specs.declared.fault.LexReason.{LexReason};
ghost use Rattle.al_lex.specs.declared.token.Token.{Token as SpecToken};
ghost use Rattle.al_lex.specs.Cut.{Piece, Cut, Stuck};
ghost use Rattle.al_lex.specs.Values.{HasValue};
ghost use Rattle.al_lex.specs.Written.{IsCutInto};

/// The laws of the cutting: each text is cut or stuck, in one way, and never both. The function does nothing.
pub fn cutting_laws()
    ensures cut_once { (text : List ℕ) (ps : List Piece) (qs : List Piece) → Cut text ps → Cut text qs → ps ≡ qs }
    ensures never_both { (text : List ℕ) (ps : List Piece) (reason : LexReason) (byte : ℕ) → Cut text ps → Stuck text reason byte → ⊥ }
    ensures one_reason { (text : List ℕ) (r : LexReason) (s : LexReason) (i : ℕ) (j : ℕ) → Stuck text r i → Stuck text s j → r ≡ s }
    ensures one_byte { (text : List ℕ) (r : LexReason) (s : LexReason) (i : ℕ) (j : ℕ) → Stuck text r i → Stuck text s j → i ≡ j }
    ensures cut_or_stuck { (text : List ℕ) → ((ps : List Piece) × Cut text ps) ⊎ ((r : LexReason) × (i : ℕ) × Stuck text r i) }
{}

/// The law of values: each token of a text stands for what is computed of its bytes. The function does nothing.
pub fn value_law()
    ensures { (text : List ℕ) (tokens : List SpecToken) → IsCutInto text tokens → All (HasValue text) tokens }
{}
