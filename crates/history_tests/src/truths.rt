//! When a comparison holds, and what AND, OR and NOT make of that.
#![tactic(auto, unfolding(crate::proofs::Computing::history))]

ghost use Rattle.std.specs.Prelude.{◌≡◌, [], ◌∷◌, false};
ghost use Rattle.own_model.specs.declared.condition.Cmp.TheVariants.{Eq, Ge, Gt, Le, Lt, Ne};
ghost use Rattle.own_model.specs.declared.truth.Truth.TheVariants.{False, True, Unknown};
ghost use Rattle.query_model.specs.Truth.{comparison, compared, greatest, is_true, least, negation};
ghost use Rattle.history_tests.specs.Written.{int, null, text};

/// Numbers compare by value, texts by bytes: 9 is below 10, and the text of 9 behind that of 10.
pub fn numbers_compare_by_value_and_texts_by_bytes()
    ensures less { comparison Lt (compared (int 9) (int 10)) ≡ True }
    ensures text { comparison Lt (compared (text "9") (text "10")) ≡ False }
    ensures capitals { comparison Lt (compared (text "Z") (text "a")) ≡ True }
    ensures front { comparison Lt (compared (text "a") (text "aa")) ≡ True }
    ensures equal { comparison Eq (compared (text "a") (text "a")) ≡ True }
{}

/// Each sign takes what it says.
pub fn signs_take_what_they_say()
    ensures equal { comparison Eq (compared (int 1) (int 2)) ≡ False }
    ensures unequal { comparison Ne (compared (int 1) (int 2)) ≡ True }
    ensures at_most { comparison Le (compared (int 2) (int 2)) ≡ True }
    ensures below { comparison Lt (compared (int 2) (int 2)) ≡ False }
    ensures at_least { comparison Ge (compared (int 2) (int 2)) ≡ True }
    ensures above { comparison Gt (compared (int 2) (int 2)) ≡ False }
{}

/// A comparison with NULL is unknown, whatever the sign, and of two NULLs too; an unknown condition keeps no row.
pub fn comparison_with_null_is_unknown()
    ensures left { comparison Eq (compared null (int 1)) ≡ Unknown }
    ensures right { comparison Ne (compared (int 1) null) ≡ Unknown }
    ensures both { comparison Eq (compared null null) ≡ Unknown }
    ensures turned { negation Unknown ≡ Unknown }
    ensures kept { is_true Unknown ≡ false }
{}

/// AND is the least of its parts and OR the greatest, with False below Unknown below True.
pub fn and_is_the_least_and_or_the_greatest()
    ensures false_ { least (Unknown ∷ False ∷ True ∷ []) ≡ False }
    ensures unknown { least (True ∷ Unknown ∷ []) ≡ Unknown }
    ensures true_ { least (True ∷ True ∷ []) ≡ True }
    ensures or_true { greatest (Unknown ∷ False ∷ True ∷ []) ≡ True }
    ensures or_unknown { greatest (False ∷ Unknown ∷ []) ≡ Unknown }
    ensures or_false { greatest (False ∷ False ∷ []) ≡ False }
    ensures not_true { negation True ≡ False }
    ensures not_false { negation False ≡ True }
{}
